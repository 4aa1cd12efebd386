// Whole numbers of small units, as exact decimals of large ones. Each honours the width of its column. Four types of decimals and
// not one of n places: the type of a field says what its unit is.
ghost use Rattle.std.specs.Prelude.{◌≡◌, Some, IfSome, IfOk};
ghost use Rattle.std.specs.Fmt.{styled_text};
ghost use Rattle.reading.specs.Columns.{tenths, hundredths, thousandths, ten_thousandths, clock};

use arrayvec::ArrayString;
use std::fmt;
use std::fmt::Write;

// Room for the longest: 2 to the power of 64 seconds are 5,124,095,576,030,431:00:15.
type Text = ArrayString<24>;

// What a format writes.
#[tactic(auto, using(crate::proofs::Text::held))]
fn text_of<D: fmt::Display + Drop>(value: D) -> Result<Text, fmt::Error>
    ensures { IfOk result (λ text. IfSome (D.output value) (λ bytes. text.bytes ≡ bytes)) }
{
    let mut text = Text::new();
    text.write_fmt(value)?;
    Ok(text)
}

#[derive(Clone, Copy, Debug, PartialEq, Eq)]
pub struct Tenths(pub u64);

#[derive(Clone, Copy, Debug, PartialEq, Eq)]
pub struct Hundredths(pub u64);

#[derive(Clone, Copy, Debug, PartialEq, Eq)]
pub struct Thousandths(pub u64);

#[derive(Clone, Copy, Debug, PartialEq, Eq)]
pub struct TenThousandths(pub u64);

/// Seconds as h:mm:ss, which is exact where a decimal of an hour is not.
#[derive(Clone, Copy, Debug, PartialEq, Eq)]
pub struct Clock(pub u64);

impl fmt::Display for Tenths {
    ghost output = { λ x. Some (tenths x.0) };

    ghost styled_output = { λ x s. Some (styled_text s (tenths x.0)) };

    fn fmt<W: fmt::Write>(&self, f: &mut fmt::Formatter<W>) -> fmt::Result {
        let text = text_of(format_args!("{}.{}", self.0 / 10, self.0 % 10))?;
        f.pad(text.as_str())
    }
}

impl fmt::Display for Hundredths {
    ghost output = { λ x. Some (hundredths x.0) };

    ghost styled_output = { λ x s. Some (styled_text s (hundredths x.0)) };

    fn fmt<W: fmt::Write>(&self, f: &mut fmt::Formatter<W>) -> fmt::Result {
        let text = text_of(format_args!("{}.{:02}", self.0 / 100, self.0 % 100))?;
        f.pad(text.as_str())
    }
}

impl fmt::Display for Thousandths {
    ghost output = { λ x. Some (thousandths x.0) };

    ghost styled_output = { λ x s. Some (styled_text s (thousandths x.0)) };

    fn fmt<W: fmt::Write>(&self, f: &mut fmt::Formatter<W>) -> fmt::Result {
        let text = text_of(format_args!("{}.{:03}", self.0 / 1000, self.0 % 1000))?;
        f.pad(text.as_str())
    }
}

impl fmt::Display for TenThousandths {
    ghost output = { λ x. Some (ten_thousandths x.0) };

    ghost styled_output = { λ x s. Some (styled_text s (ten_thousandths x.0)) };

    fn fmt<W: fmt::Write>(&self, f: &mut fmt::Formatter<W>) -> fmt::Result {
        let text = text_of(format_args!("{}.{:04}", self.0 / 10000, self.0 % 10000))?;
        f.pad(text.as_str())
    }
}

impl fmt::Display for Clock {
    ghost output = { λ x. Some (clock x.0) };

    ghost styled_output = { λ x s. Some (styled_text s (clock x.0)) };

    fn fmt<W: fmt::Write>(&self, f: &mut fmt::Formatter<W>) -> fmt::Result {
        let minutes = self.0 / 60;
        let text = text_of(format_args!(
            "{}:{:02}:{:02}",
            minutes / 60,
            minutes % 60,
            self.0 % 60
        ))?;
        f.pad(text.as_str())
    }
}
