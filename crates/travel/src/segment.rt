// One segment of a flow path.
ghost use Rattle.std.specs.Prelude.{◌≡◌};
ghost use Rattle.travel.specs.Segments.{Reads, within_of, placed_of, time_of, NumbersOk};

use crate::{CHANNEL, GIVEN, PAVED, SEGMENT_WIDTH, SHEET, UNPAVED, manning, shallow_time};

// K of TR-55 appendix F, in ten-thousandths.
const UNPAVED_FACTOR: u64 = 161345;

const PAVED_FACTOR: u64 = 203282;

/// A stretch of a flow path by its kind. Length in ft, slope in ten-thousandths, velocity in hundredths of a ft/s, Manning's n in
/// thousandths, 2-year rain in thousandths of an inch, hydraulic radius in hundredths of a ft.
#[derive(Clone, Copy, Debug, PartialEq, Eq)]
pub enum Segment {
    Unpaved {
        length: u64,
        slope: u64,
    },
    Paved {
        length: u64,
        slope: u64,
    },
    Given {
        length: u64,
        velocity: u64,
    },
    Sheet {
        length: u64,
        n: u64,
        rain: u64,
        slope: u64,
    },
    Channel {
        length: u64,
        n: u64,
        radius: u64,
        slope: u64,
    },
}

/// A number that is no kind.
#[derive(Clone, Copy, Debug, PartialEq, Eq)]
pub struct UnknownKind {
    pub kind: u64,
}

// The numbers that a kind does not have are spare and not read.
impl TryFrom<[u64; SEGMENT_WIDTH]> for Segment {
    type Error = UnknownKind;

    ghost try_from_gives = { Reads };

    fn try_from(numbers: [u64; SEGMENT_WIDTH]) -> Result<Self, UnknownKind> {
        let [kind, length, third, fourth, fifth] = numbers;
        match kind {
            UNPAVED => Ok(Segment::Unpaved {
                length,
                slope: third,
            }),
            PAVED => Ok(Segment::Paved {
                length,
                slope: third,
            }),
            GIVEN => Ok(Segment::Given {
                length,
                velocity: third,
            }),
            SHEET => Ok(Segment::Sheet {
                length,
                n: third,
                rain: fourth,
                slope: fifth,
            }),
            CHANNEL => Ok(Segment::Channel {
                length,
                n: third,
                radius: fourth,
                slope: fifth,
            }),
            _ => Err(UnknownKind { kind }),
        }
    }
}

impl Segment {
    // Within the limits of its kind; limit is how far sheet flow may run.
    pub fn within(&self, limit: u64) -> bool
        ensures { result ≡ within_of limit self.now }
    {
        match *self {
            Segment::Unpaved {
                length,
                slope: rate,
            }
            | Segment::Paved {
                length,
                slope: rate,
            }
            | Segment::Given {
                length,
                velocity: rate,
            } => (1..=4000).contains(&length) && (1..=10000).contains(&rate),
            Segment::Sheet {
                length,
                n,
                rain,
                slope,
            } => {
                (1..=limit).contains(&length)
                    && (1..=999).contains(&n)
                    && (1..=30000).contains(&rain)
                    && (1..=10000).contains(&slope)
            }
            Segment::Channel {
                length,
                n,
                radius,
                slope,
            } => {
                (1..=4000).contains(&length)
                    && (1..=999).contains(&n)
                    && (1..=10000).contains(&radius)
                    && (1..=10000).contains(&slope)
            }
        }
    }

    // Sheet flow stands first.
    pub fn placed(&self, i: usize) -> bool
        ensures { result ≡ placed_of self.now i }
    {
        match *self {
            Segment::Sheet { .. } => i == 0,
            _ => true,
        }
    }

    /// Its travel time in whole seconds, down.
    pub fn time(&self) -> u64
        requires { NumbersOk self.now }
        ensures { result ≡ time_of self.now }
    {
        match *self {
            Segment::Unpaved { length, slope } => shallow_time(UNPAVED_FACTOR, length, slope),
            Segment::Paved { length, slope } => shallow_time(PAVED_FACTOR, length, slope),
            Segment::Given { length, velocity } => 100 * length / velocity,
            Segment::Sheet {
                length,
                n,
                rain,
                slope,
            } => manning::sheet_time(length, n, rain, slope),
            Segment::Channel {
                length,
                n,
                radius,
                slope,
            } => manning::channel_time(length, n, radius, slope),
        }
    }
}
