// Travel time: segment times, the time of concentration and the time to peak, in whole seconds.
#![tactic(auto)]

mod manning;
mod rule;
mod segment;

ghost use Rattle.std.specs.Prelude.{◌≡◌};
ghost use Rattle.std.specs.List.{list_all, enumerate_from};
ghost use Rattle.travel.specs.TravelTime.{shallow, segment_time, concentration, time_to_peak, rule_good, sheet_limit, segments_good};
ghost use Rattle.travel.specs.Segments.{numbers_good};
ghost use Rattle.travel.specs.Needs.{ShallowOk, SegmentOk, SegmentsOk, TimeOk};

pub use rule::{SheetRule, UnknownRule};
pub use segment::{Segment, UnknownKind};

// The numbers of a segment in a list, and the segments that a subarea can have.
pub const SEGMENT_WIDTH: usize = 5;

pub const MOST_SEGMENTS: usize = 6;

// Kinds of segments. The last two have five numbers, the others three and two spare ones.
const UNPAVED: u64 = 1;

const PAVED: u64 = 2;

const GIVEN: u64 = 3;

pub const SHEET: u64 = 4;

pub const CHANNEL: u64 = 5;

// Sheet rules: TR-55 of 1986; WinTR-55 and NEH 630 chapter 15.
pub const TR55: u64 = 1;

pub const WINTR55: u64 = 2;

// Divided first: T^2 K^2 s would not fit 64 bits, and L^2 10^12 just does.
fn shallow_time(constant: u64, length: u64, slope: u64) -> u64
    requires { ShallowOk constant length slope }
    ensures { result ≡ shallow constant length slope }
{
    roots::square::root(length * length * 1000000000000 / (constant * constant * slope))
}

// The time of one segment. What stands third, fourth and fifth is by its kind.
pub fn segment_time(kind: u64, length: u64, third: u64, fourth: u64, fifth: u64) -> u64
    requires { SegmentOk kind length third fourth fifth }
    ensures { result ≡ segment_time kind length third fourth fifth }
{
    match Segment::try_from([kind, length, third, fourth, fifth]) {
        Ok(segment) => segment.time(),
        Err(_) => unreachable!(),
    }
}

// Is there such a sheet rule?
#[tactic(auto, unfolding(crate::specs::TravelTime::rule_good))]
pub fn rule_good(rule: u64) -> bool
    ensures { result ≡ rule_good rule }
{
    SheetRule::try_from(rule).is_ok()
}

// How far sheet flow may run, in ft. A number that is no rule is refused by 20 before this is asked, and counts as WinTr55.
#[tactic(auto, unfolding(crate::specs::TravelTime::sheet_limit))]
pub fn sheet_limit(rule: u64) -> u64
    ensures { result ≡ sheet_limit rule }
{
    SheetRule::try_from(rule)
        .unwrap_or(SheetRule::WinTr55)
        .limit()
}

// A segment at place i is within its limits.
fn segment_good(limit: u64, i: usize, numbers: &[u64; SEGMENT_WIDTH]) -> bool
    ensures { result ≡ numbers_good limit i numbers.now }
{
    match Segment::try_from(*numbers) {
        Ok(segment) => segment.placed(i) && segment.within(limit),
        Err(_) => false,
    }
}

fn all_good(limit: u64, list: &[[u64; SEGMENT_WIDTH]]) -> bool
    ensures { result ≡ list_all (λ t. numbers_good limit t.0 t.1) (enumerate_from 0 list.now) }
{
    list.iter()
        .enumerate()
        .all(|(i, numbers)| segment_good(limit, i, numbers))
}

// 1 to 6 whole segments, each within its limits: any numbers may stand in the list. A twin of curve::patches_good, which says why.
#[tactic(auto, using(crate::proofs::Segments::segments_each))]
pub fn segments_good(limit: u64, segments: &[u64]) -> bool
    ensures { result ≡ segments_good limit segments.now }
{
    let (list, rest) = segments.as_chunks::<SEGMENT_WIDTH>();
    rest.is_empty() && (1..=MOST_SEGMENTS).contains(&list.len()) && all_good(limit, list)
}

// The time of concentration.
pub fn concentration(segments: &[u64]) -> u64
    requires { SegmentsOk segments.now }
    ensures { result ≡ concentration segments.now }
{
    let (list, _) = segments.as_chunks::<SEGMENT_WIDTH>();
    let mut sum = 0;
    for &[kind, length, third, fourth, fifth] in list {
        sum += segment_time(kind, length, third, fourth, fifth);
    }
    sum.max(360)
}

// The time to peak: the lag, six tenths of the time of concentration, and half the step.
pub fn time_to_peak(step: u64, concentration: u64) -> u64
    requires { TimeOk concentration }
    ensures { result ≡ time_to_peak step concentration }
{
    3 * concentration / 5 + step / 2
}
