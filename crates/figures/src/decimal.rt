// Whole numbers, and figures as a manual prints them, out of bytes.
use guarded::ABOVE_LIMITS;

// The digits of a text behind those of a number; none where one is no digit, or they would be a number above the limits.
// Not by parse: a figure's digits stand on both sides of its point.
fn behind(number: u64, text: &[u8]) -> Option<u64> {
    let mut number = number;
    for digit in text {
        if !digit.is_ascii_digit() || number >= ABOVE_LIMITS / 10 {
            return None;
        }
        number = number * 10 + u64::from(digit - b'0');
    }
    Some(number)
}

pub(crate) fn whole(text: &[u8]) -> Option<u64> {
    if text.is_empty() {
        None
    } else {
        behind(0, text)
    }
}

// What is too large to be brought to a unit counts as ABOVE_LIMITS.
pub(crate) fn product(number: u64, times: u64) -> u64 {
    if number > 10000000000 || times > 1000 {
        ABOVE_LIMITS
    } else {
        number * times
    }
}

// A number with as many zeros behind it, for figures of up to three decimals.
fn tenfold(number: u64, places: usize) -> u64 {
    if number > 1000000000000 {
        return ABOVE_LIMITS;
    }
    match places {
        0 => number,
        1 => number * 10,
        2 => number * 100,
        3 => number * 1000,
        _ => ABOVE_LIMITS,
    }
}

// The quotient to the nearest whole, halves up; none above the limits.
fn nearest(number: u64, divisor: u64) -> Option<u64> {
    if number > ABOVE_LIMITS || divisor > ABOVE_LIMITS || divisor == 0 {
        return None;
    }
    let quotient = (2 * number + divisor) / (2 * divisor);
    if quotient < ABOVE_LIMITS {
        Some(quotient)
    } else {
        None
    }
}

// A printed figure: its digits as one whole number, and how many of them are decimals.
#[derive(Clone, Copy, Debug, PartialEq, Eq)]
pub(crate) struct Decimal {
    pub(crate) digits: Option<u64>,
    places: usize,
}

impl Decimal {
    pub(crate) fn of(text: &[u8]) -> Decimal {
        let mut parts = text.splitn(2, |byte| *byte == b'.');
        let before = parts.next().unwrap_or(&[]);
        let decimals = parts.next().unwrap_or(&[]);
        Decimal {
            digits: whole(before).and_then(|number| behind(number, decimals)),
            places: decimals.len(),
        }
    }

    // The whole number that it rounds to. A text that is no number counts as ABOVE_LIMITS.
    pub(crate) fn rounded(self) -> Option<u64> {
        nearest(self.digits.unwrap_or(ABOVE_LIMITS), tenfold(1, self.places))
    }

    // Whether the quotient, rounded to the figure's places, is the figure.
    pub(crate) fn is_nearest(self, number: u64, divisor: u64) -> bool {
        nearest(tenfold(number, self.places), divisor) == self.digits
    }
}
