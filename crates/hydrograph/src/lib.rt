// Inflow rows: from a subarea's numbers and the rain to its parts of the rows' inflow volumes.
// Units: time to peak and step in seconds, area in hundredths of an acre, rain in thousandths of an inch,
// depths in millionths of an inch, volumes in thousandths of a cubic foot.
#![tactic(auto)]

ghost use Rattle.std.specs.Prelude.{◌≡◌, ℕ, ◌+◌, ◌*◌, ◌≤◌, ◌<◌, min, length, get_or};
ghost use Rattle.laws.specs.Sum.{sum_to};
ghost use Rattle.laws.specs.Listed.{rows_from};
ghost use Rattle.travel.specs.Needs.{TimeOk};
ghost use Rattle.hydrograph.specs.InflowRows.{time, ratio, line_at, on_line, weight, weights, total_weight, volume_of, concentration_good, peak_good, weights_good};
ghost use Rattle.hydrograph.specs.Needs.{hand, weighed, product, LineOk, TimingOk, PaceOk, PenOk, PenReady, Below, most_depth};
ghost use Rattle.laws.specs.Limits.{most_rows, most_step, most_area, most_weights};

use laws::limits;

// The weights that are worked out and laid at once.
pub const HAND: usize = 8;

// A depth for each row, and the one before the first.
pub const ENTRIES: usize = limits::MOST_ROWS + 1;

// The shape's times, in tenths of the time to peak: knots stand 1 apart to 20, 2 apart to 40, then 5. Worked out, since a
// table that is read for each knot of each weight would be laid on the stack as often.
#[tactic(auto, using(crate::proofs::Lines::time_near_first, crate::proofs::Lines::time_further, crate::proofs::Lines::time_far))]
fn time_at(i: usize) -> u64
    requires { i < 33 }
    ensures { result ≡ time i }
{
    let k = i as u64;
    if k <= 20 {
        return k;
    }
    if k <= 30 {
        return 2 * k - 20;
    }
    5 * k - 110
}

// The shape's ratios, in thousandths of the peak: 0 at its first knot and at its last. Told by a match, since a table would be
// laid on the stack wherever it is read.
#[tactic(auto, unfolding(crate::specs::InflowRows::ratio, crate::specs::InflowRows::shape))]
fn ratio_at(i: usize) -> u64
    requires { i < 33 }
    ensures { result ≡ ratio i }
{
    match i {
        1 => 30,
        2 => 100,
        3 => 190,
        4 => 310,
        5 => 470,
        6 => 660,
        7 => 820,
        8 => 930,
        9 => 990,
        10 => 1000,
        11 => 990,
        12 => 930,
        13 => 860,
        14 => 780,
        15 => 680,
        16 => 560,
        17 => 460,
        18 => 390,
        19 => 330,
        20 => 280,
        21 => 207,
        22 => 147,
        23 => 107,
        24 => 77,
        25 => 55,
        26 => 40,
        27 => 29,
        28 => 21,
        29 => 15,
        30 => 11,
        31 => 5,
        _ => 0,
    }
}

// When knot i stands, in tenths of a second: the pen's alone. `line_at` and `weight`, which the textbook's engine calls too,
// multiply for themselves.
#[tactic(auto, using(crate::proofs::Lines::time_most, crate::proofs::Lines::knot_fits))]
fn knot_at(peak: u64, i: usize) -> u64
    requires { (peak ≤ 400000) × (i < 33) }
    ensures { result ≡ time i * peak }
{
    time_at(i) * peak
}

// The line between knots on which a time, in tenths of a second, lies. Not by `position`: what its closure asks of the knots did
// not prove.
#[tactic(auto, using(crate::proofs::Lines::time_most, crate::proofs::Lines::knot_fits))]
fn line_at(peak: u64, t: u64) -> usize
    requires { peak ≤ 400000 }
    ensures { result ≡ line_at peak t }
{
    for i in 0..32 {
        if t <= time_at(i + 1) * peak {
            return i;
        }
    }
    32
}

// 1000 times the straight line through (a, y0) and (b, y1) at t, with no sign to mind.
#[tactic(auto, unfolding(crate::specs::InflowRows::on_line))]
fn on_line(t: u64, a: u64, b: u64, y0: u64, y1: u64) -> u64
    requires { LineOk t a b y0 y1 }
    ensures { result ≡ on_line t a b y0 y1 }
{
    1000 * (y0 * (b - t) + y1 * (t - a)) / (b - a)
}

// Weight j, at j steps.
pub fn weight(peak: u64, step: u64, j: u64) -> u64
    requires { TimingOk step peak × (j * step ≤ 5 * peak) }
    ensures { result ≡ weight peak step j }
{
    let t = 10 * (j * step);
    let i = line_at(peak, t);
    on_line(
        t,
        time_at(i) * peak,
        time_at(i + 1) * peak,
        ratio_at(i),
        ratio_at(i + 1),
    )
}

// The line on which a time lies, looked for from a line at or before it: a time ends this loop, no count, so no `for` is plainer.
fn line_from(peak: u64, t: u64, from: usize) -> usize
    requires { (peak ≤ 400000) × ((t ≤ 50 * peak) × (from ≤ line_at peak t)) }
    ensures { result ≡ line_at peak t }
{
    let mut i = from;
    while knot_at(peak, i + 1) < t {
        i += 1;
    }
    i
}

// What a step adds to the value on a line, as quotient and rest by the line's length: `up` lengths and `more`, less `down`
// lengths, so that a line that falls has no sign to mind.
#[derive(Clone, Copy, Debug, Default, PartialEq, Eq)]
struct Pace {
    up: u64,
    down: u64,
    more: u64,
}

// The pace of a line between two ratios; worked out only where another weight comes before the line's end.
fn pace_on(left: u64, length: u64, step: u64, y0: u64, y1: u64) -> Pace
    requires { (0 < length) × ((step ≤ most_step) × ((y0 ≤ 1000) × (y1 ≤ 1000))) }
    ensures { PaceOk left length step y0 y1 result }
{
    if left < 10 * step {
        return Pace::default();
    }
    if y0 <= y1 {
        let rise = 10000 * step * (y1 - y0);
        return Pace {
            up: rise / length,
            down: 0,
            more: rise % length,
        };
    }
    let fall = 10000 * step * (y0 - y1);
    Pace {
        up: 0,
        down: fall / length + 1,
        more: length - fall % length,
    }
}

// A pen on the shape's lines: the time of the weight it gives and where its line ends, in tenths of a second; the weight and
// what its division left over, of 1000 times the line's value times the line's length; and the line's pace.
#[derive(Clone, Copy, Debug, PartialEq, Eq)]
struct Pen {
    time: u64,
    end: u64,
    line: usize,
    weight: u64,
    rest: u64,
    length: u64,
    pace: Pace,
}

// The pen at a time, from a line at or before it.
fn pen_at(peak: u64, step: u64, t: u64, from: usize) -> Pen
    requires { TimingOk step peak × ((t ≤ 50 * peak) × (from ≤ line_at peak t)) }
    ensures { (result.time ≡ t) × PenOk peak step result }
{
    let line = line_from(peak, t, from);
    let low = knot_at(peak, line);
    let end = knot_at(peak, line + 1);
    let y0 = ratio_at(line);
    let y1 = ratio_at(line + 1);
    let length = end - low;
    let pace = pace_on(end - t, length, step, y0, y1);
    let value = 1000 * (y0 * (end - t) + y1 * (t - low));
    Pen {
        time: t,
        end,
        line,
        weight: value / length,
        rest: value % length,
        length,
        pace,
    }
}

// The pen a step on: on its line by addition alone, with the carry; else on a line that follows.
fn pen_next(pen: Pen, peak: u64, step: u64) -> Pen
    requires { TimingOk step peak × (PenReady peak step pen × (pen.time + 10 * step ≤ 50 * peak)) }
    ensures { (result.time ≡ pen.time + 10 * step) × PenOk peak step result }
{
    let t = pen.time + 10 * step;
    if t > pen.end {
        return pen_at(peak, step, t, pen.line);
    }
    let pace = pen.pace;
    let mut weight = pen.weight + pace.up;
    let mut rest = pen.rest + pace.more;
    if rest >= pen.length {
        weight += 1;
        rest -= pen.length;
    }
    Pen {
        time: t,
        end: pen.end,
        line: pen.line,
        weight: weight - pace.down,
        rest,
        length: pen.length,
        pace,
    }
}

// A pen above the shape, a step before the weight after the first `done`: its line has ended, so that its next step sets it
// down on the line of that weight, looked for from `line` on.
fn pen_above(step: u64, done: usize, line: usize) -> Pen
    requires { (step ≤ most_step) × (done < most_weights) }
    ensures { (result.time ≡ 10 * (done * step)) × ((result.end ≡ 0) × (result.line ≡ line)) }
{
    Pen {
        time: 10 * (done as u64 * step),
        end: 0,
        line,
        weight: 0,
        rest: 0,
        length: 1,
        pace: Pace::default(),
    }
}

// Puts the weights from the one after the first `done` on into a list, as many as it has places for, 0 past the last of `count`;
// looks for their lines from a line at or before the first of them, and gives the last one's.
pub fn fill_weights(
    peak: u64,
    step: u64,
    count: usize,
    done: usize,
    from: usize,
    list: &mut [u32; HAND],
) -> usize
    requires timing_ok { TimingOk step peak × ((count ≡ weights peak step) × (done < count)) }
    requires from_bound { (from ≤ line_at peak (10 * ((done + 1) * step))) × (length list.old ≡ hand) }
    ensures { (result ≡ line_at peak (10 * (min (done + hand) (weights peak step) * step))) × (list.new ≡ rows_from (weighed peak step) done hand) }
{
    let mut pen = pen_above(step, done, from);
    for i in 0..HAND {
        let mut next = 0;
        if done + i < count {
            pen = pen_next(pen, peak, step);
            next = pen.weight;
        }
        list[i] = next as u32;
    }
    pen.line
}

// The sum of a hand of weights.
#[tactic(auto, unfolding(laws::specs::Sum::sum_to))]
fn sum_of_hand(list: &[u32; HAND]) -> u64
    requires { Below list.now hand 1000000 }
    ensures { result ≡ sum_to (λ (i : ℕ). get_or list.now i 0) hand }
{
    let mut sum = 0;
    for i in 0..HAND {
        sum += u64::from(list[i]);
    }
    sum
}

// The sum of all weights.
pub fn total_weight(peak: u64, step: u64) -> u64
    requires { TimingOk step peak }
    ensures { result ≡ total_weight peak step }
{
    let count = (5 * peak / step) as usize;
    let mut list = [0u32; HAND];
    let mut line = 0;
    let mut total = 0;
    let mut done = 0;
    // As the hands of `sums` go, which a `step_by` makes slower.
    while done < count {
        line = fill_weights(peak, step, count, done, line, &mut list);
        total += sum_of_hand(&list);
        done += HAND;
    }
    total
}

// The first n weights, each times the depth as many places before k, summed.
#[tactic(auto, unfolding(laws::specs::Sum::sum_to))]
pub fn dot(
    weights: &[u32; limits::MOST_WEIGHTS],
    depths: &[u32; ENTRIES],
    k: usize,
    n: usize,
) -> u64
    requires { (n ≤ most_weights) × ((n ≤ k) × ((k ≤ most_rows) × (Below weights.now n 1000000 × Below depths.now (k + 1) most_depth))) }
    ensures { result ≡ sum_to (product weights.now depths.now k) n }
{
    let mut sum = 0;
    for i in 0..n {
        sum += u64::from(weights[i]) * u64::from(depths[k - i]);
    }
    sum
}

// The volume of a depth on an area.
#[tactic(auto, unfolding(crate::specs::InflowRows::volume_of))]
pub fn volume(area: u64, depth: u64) -> u64
    requires { (area ≤ most_area) × (depth ≤ most_depth) }
    ensures { result ≡ volume_of area depth }
{
    363 * area * depth / 10000
}

// Refusal 9 of one Tc, as a test that passes.
#[tactic(auto, unfolding(crate::specs::InflowRows::concentration_good))]
pub fn concentration_good(concentration: u64) -> bool
    ensures { result ≡ concentration_good concentration }
{
    concentration <= limits::MOST_TIME
}

// Refusal 10: the step is not above the time to peak.
#[tactic(auto, unfolding(crate::specs::InflowRows::peak_good))]
pub fn peak_good(step: u64, concentration: u64) -> bool
    requires { TimeOk concentration }
    ensures { result ≡ peak_good step concentration }
{
    step <= travel::time_to_peak(step, concentration)
}

// Refusal 11: the shape has no more weights than there is room for.
#[tactic(auto, using(travel::proofs::Times::peak_most), unfolding(crate::specs::InflowRows::weights_good))]
pub fn weights_good(step: u64, concentration: u64) -> bool
    requires { (step ≤ most_step) × TimeOk concentration }
    ensures { result ≡ weights_good step concentration }
{
    let peak = travel::time_to_peak(step, concentration);
    5 * peak <= limits::MOST_WEIGHTS as u64 * step
}
