// The engine's functions by a letter, behind their limits: no figure where the numbers are out of them.
#![tactic(auto)]

mod bursts;
mod functions;
mod ponds;
mod studies;

use functions::Function;
use laws::limits;
use refusals::Rule;
use travel::SheetRule;

// Above every limit of the engine.
pub const ABOVE_LIMITS: u64 = 1000000000000000;

// No segment takes longer: a channel as rough and as long as may be, at the least radius and slope.
const MOST_SEGMENT_TIME: u64 = 5777933;

// The greatest Tc that segments within their limits can have. Refusal 9 begins far below it.
const GREATEST_TC: u64 = travel::MOST_SEGMENTS as u64 * MOST_SEGMENT_TIME;

// The greatest sums of a mean.
const MOST_OF_MEAN: u64 = 1000000000000;

// The greatest depth of a volume, in millionths of an inch.
const MOST_DEPTH: u64 = 30000000;

// What a function gives: up to four figures.
pub type Four = [Option<u64>; 4];

fn one(figure: Option<u64>) -> Four {
    [figure, None, None, None]
}

fn cover(cover: u64, soil: u64) -> Option<u64> {
    if (1..=22).contains(&cover) && (1..=4).contains(&soil) {
        Some(curve::cover_number(cover, soil))
    } else {
        None
    }
}

// A cover's curve numbers on the four soils.
fn covers(n: &[u64]) -> Four {
    match *n {
        [number, ..] => [1, 2, 3, 4].map(|soil| cover(number, soil)),
        [] => [None; 4],
    }
}

// The composite curve number of patches, three numbers each, in tenths.
fn composite(patches: &[u64]) -> Option<u64> {
    if curve::patches_good(patches) {
        Some(curve::composite(patches).tenths)
    } else {
        None
    }
}

// The mean, in tenths, of curve numbers that no cover code has: their sum by area, and the area.
fn mean(n: &[u64]) -> Option<u64> {
    match *n {
        [weighted, area, ..] if weighted <= MOST_OF_MEAN && (1..=MOST_OF_MEAN).contains(&area) => {
            Some(curve::mean_tenths(weighted, area))
        }
        _ => None,
    }
}

// Of the curve number in tenths, which stands first, and the rain at place i behind it.
fn depth(n: &[u64], i: usize) -> Option<u64> {
    let tenths = *n.first()?;
    let rain = *n.get(i)?;
    if (300..=980).contains(&tenths) && rain <= limits::MOST_RAIN {
        Some(runoff::depth(tenths, rain))
    } else {
        None
    }
}

// The time of a segment: what stands third, fourth and fifth is by its kind. By itself it is of no study and has no sheet
// rule: no time depends on it, and it is tested by the farther limit. A number that is not there is above its limit, and only
// a kind that does not read it passes.
fn segment(n: &[u64]) -> Option<u64> {
    let mut own = [ABOVE_LIMITS; travel::SEGMENT_WIDTH];
    for (place, number) in own.iter_mut().zip(n) {
        *place = *number;
    }
    if !travel::segments_good(SheetRule::Tr55.limit(), &own) {
        return None;
    }
    let [kind, length, third, fourth, fifth] = own;
    Some(travel::segment_time(kind, length, third, fourth, fifth))
}

// Tc and Tp of the segments that stand behind a step; by the farther limit, as a segment.
fn path(n: &[u64]) -> Four {
    match n {
        [step, segments @ ..] if travel::segments_good(SheetRule::Tr55.limit(), segments) => {
            let tc = travel::concentration(segments);
            let [peak, ..] = timing(*step, tc);
            [Some(tc), peak, None, None]
        }
        _ => [None; 4],
    }
}

// Tp, and the first of refusals 9 to 11 that a Tc meets at a step, 0 for none.
fn timing(step: u64, tc: u64) -> Four {
    if step > limits::MOST_STEP || !(360..=GREATEST_TC).contains(&tc) {
        return [None; 4];
    }
    let refusal = if !hydrograph::concentration_good(tc) {
        Some(Rule::Concentration)
    } else if !hydrograph::peak_good(step, tc) {
        Some(Rule::Coarse)
    } else if !hydrograph::weights_good(step, tc) {
        Some(Rule::Weights)
    } else {
        None
    };
    [
        Some(travel::time_to_peak(step, tc)),
        Some(refusal.map_or(0, Rule::number)),
        None,
        None,
    ]
}

// The numbers: the step, the Tc.
fn timing_of(n: &[u64]) -> Four {
    match *n {
        [step, tc, ..] => timing(step, tc),
        _ => [None; 4],
    }
}

// The weight of a Tp and a step at place j.
fn weight(n: &[u64]) -> Option<u64> {
    let [peak, step, j, ..] = *n else {
        return None;
    };
    if !(limits::LEAST_STEP..=limits::MOST_STEP).contains(&step)
        || !(step..=400000).contains(&peak)
    {
        return None;
    }
    let most = limits::MOST_WEIGHTS as u64;
    if 5 * peak > most * step || j > most || j * step > 5 * peak {
        return None;
    }
    Some(hydrograph::weight(peak, step, j))
}

fn volume(area: u64, depth: u64) -> Option<u64> {
    if area <= limits::MOST_AREA && depth <= MOST_DEPTH {
        Some(hydrograph::volume(area, depth))
    } else {
        None
    }
}

// Of two areas as one, each with its depth behind it; a row with one area has 0 for the other.
fn volumes(n: &[u64]) -> Option<u64> {
    match *n {
        [area, depth, other_area, other_depth, ..] => {
            volume(area, depth)?.checked_add(volume(other_area, other_depth)?)
        }
        _ => None,
    }
}

// X of a row, the last of its figures, alone.
fn routed_sum(n: &[u64]) -> Option<u64> {
    let [_, _, _, sum] = ponds::routed(n);
    sum
}

impl Function {
    fn figures(self, n: &[u64]) -> Four {
        match self {
            Function::Covers => covers(n),
            Function::Composite => one(composite(n)),
            Function::Mean => one(mean(n)),
            Function::Depth => one(depth(n, 1)),
            Function::Depths => [depth(n, 1), depth(n, 2), depth(n, 3), depth(n, 4)],
            Function::Segment => one(segment(n)),
            Function::Path => path(n),
            Function::Timing => timing_of(n),
            Function::Weight => one(weight(n)),
            Function::Volume => one(volumes(n)),
            Function::SumOfProducts => one(bursts::sum(n)),
            Function::PondSum => one(ponds::sum(n)),
            Function::Route => ponds::routed(n),
            Function::RoutedSum => one(routed_sum(n)),
            Function::Study(asked) => studies::run(asked, n),
        }
    }
}

// The function that a letter names, on a list of numbers. Any letter may be asked, so it takes the byte and not a `Function`.
pub fn given_by(function: u8, n: &[u64]) -> Four {
    match Function::try_from(function) {
        Ok(function) => function.figures(n),
        Err(_) => [None; 4],
    }
}
