// Sums of weights times depths, a hand of weights at a time: of a block of rows, its depths on the stack, or of as many rows
// as a list of depths is lent for.
// Units: time to peak and step in seconds, area in hundredths of an acre, rain in thousandths of an inch, depths in millionths
// of an inch.
#![tactic(auto)]

pub mod depths;

ghost use Rattle.std.specs.Prelude.{◌≡◌, ◌+◌, ◌-◌, ◌*◌, ◌≤◌, ◌<◌, length, get_or};
ghost use Rattle.laws.specs.Limits.{most_rows};
ghost use Rattle.laws.specs.Listed.{plus, rows_from};
ghost use Rattle.hydrograph.specs.InflowRows.{weights, line_at};
ghost use Rattle.hydrograph.specs.Needs.{hand, Below, most_depth, RainOk};
ghost use Rattle.sums.specs.Needs.{block_rows, handful, sum_of, sum_in, NumbersOk, WindowOk, Slid};

use hydrograph::HAND;

// The rows of a block.
pub const BLOCK: usize = 31;

// A subarea's numbers: its curve number in tenths, its area, its time to peak, the sum of its weights.
#[derive(Clone, Copy, Debug, PartialEq, Eq)]
pub struct Numbers {
    pub tenths: u64,
    pub area: u64,
    pub peak: u64,
    pub total: u64,
}

// The sums of a block: of the row before it, and of each of its rows.
pub const SUMS: usize = BLOCK + 1;

// The depths that a hand of weights asks for over a block's sums.
const WINDOW: usize = BLOCK + HAND;

// x, which is below 2^32; it tells the compiler so, which then multiplies by halves.
fn narrow(x: u64) -> u64
    requires { x ≤ most_depth }
    ensures { result ≡ x }
{
    x % 4294967296
}

// A weight times a depth.
fn term(w: u32, q: &[u64], i: usize) -> u64
    requires { (w ≤ 1000000) × ((i < length q.now) × (get_or q.now i 0 ≤ most_depth)) }
    ensures { (result ≡ w * get_or q.now i 0) × (result ≤ 30000000000000) }
{
    u64::from(w) * narrow(q[i])
}

// Adds a hand of weights, each times its depth, to every sum. The innermost loop of everything: the weights stand as eight numbers,
// which it keeps in registers, and no loop runs over them, which would be slower by half.
fn lay(sums: &mut [u64], q: &[u64], w: &[u32; HAND])
    requires { (length sums.old + 7 ≤ length q.now) × (Below q.now (length sums.old + 7) most_depth × (Below w.now hand 1000000 × Below sums.old (length sums.old) 16000000000000000)) }
    ensures { sums.new ≡ plus (handful w.now q.now) 1 sums.old }
{
    let [w0, w1, w2, w3, w4, w5, w6, w7] = *w;
    // By place: after `iter_mut` with a second list nothing is known of what was written.
    for i in 0..sums.len() {
        let a = term(w0, q, i + 7) + term(w1, q, i + 6) + term(w2, q, i + 5);
        let b = term(w3, q, i + 4) + term(w4, q, i + 3) + term(w5, q, i + 2);
        sums[i] += a + b + term(w6, q, i + 1) + term(w7, q, i);
    }
}

// Moves the first n numbers of the window a hand up.
fn slide(q: &mut [u64], n: usize)
    requires { (n ≤ block_rows) × (length q.old ≡ block_rows + hand) }
    ensures { Slid n q.old q.new }
{
    q.copy_within(..n, HAND);
}

// Lays the hand of weights after the first `done` of `count` over the sums of rows from row `from` on, and readies the window for the
// next one. Gives the line of the hand's last weight.
fn lay_hand(
    own: Numbers,
    step: u64,
    rain: &[u64],
    from: usize,
    count: usize,
    done: usize,
    line: usize,
    sums: &mut [u64],
    q: &mut [u64],
) -> usize
    requires numbers_ok { NumbersOk step own × (RainOk rain.now × ((2 ≤ length sums.old) × ((length sums.old ≤ block_rows + 1) × (from + length sums.old ≤ most_rows + 1)))) }
    requires count_value { (count ≡ weights own.peak step) × ((done < count) × (line ≤ line_at own.peak (10 * ((done + 1) * step)))) }
    requires window_ok { WindowOk own.tenths rain.now from done (length sums.old - 1) q.old × (sums.old ≡ rows_from (sum_of step rain.now own done) from (length sums.old)) }
    ensures sums_after { sums.new ≡ rows_from (sum_of step rain.now own (done + hand)) from (length sums.old) }
    ensures window_ok_2 { WindowOk own.tenths rain.now from (done + hand) (length sums.old - 1) q.new }
    ensures upper_bound { result ≤ line_at own.peak (10 * ((done + hand + 1) * step)) }
{
    let mut w = [0u32; HAND];
    let n = sums.len() - 1;
    depths::fill_depths(own.tenths, rain, from + 1, done + HAND, &mut q[..HAND]);
    let last = hydrograph::fill_weights(own.peak, step, count, done, line, &mut w);
    lay(sums, q, &w);
    slide(q, n);
    last
}

// Writes the sums through rows `from`, `from` + 1 and so on. It stops where the window's last depth is 0: no depth
// before it is more.
pub fn block_sums(own: Numbers, step: u64, rain: &[u64], from: usize, sums: &mut [u64])
    requires { NumbersOk step own × (RainOk rain.now × ((2 ≤ length sums.old) × ((length sums.old ≤ block_rows + 1) × (from + length sums.old ≤ most_rows + 1)))) }
    ensures { sums.new ≡ rows_from (sum_of step rain.now own (weights own.peak step)) from (length sums.old) }
{
    sums.fill(0);
    let count = (5 * own.peak / step) as usize;
    let n = sums.len() - 1;
    let mut q = [0u64; WINDOW];
    let e = n + HAND;
    depths::fill_depths(own.tenths, rain, from + 1, 0, &mut q[HAND..e]);
    let mut line = 0;
    let mut done = 0;
    // As in `far_sums`.
    while done < count {
        if q[e - 1] == 0 {
            return;
        }
        line = lay_hand(own, step, rain, from, count, done, line, sums, &mut q[..]);
        done += HAND;
    }
}

// Writes the sums in places `lead` - 1, `lead` and so on of a list of depths that holds all they ask for.
pub fn far_sums(own: Numbers, step: u64, q: &[u64], lead: usize, sums: &mut [u64])
    requires numbers_ok { NumbersOk step own × ((weights own.peak step + 7 ≤ lead) × ((lead ≤ 10000) × ((length sums.old ≤ most_rows) × (lead + length sums.old ≤ length q.now + 1)))) }
    requires below { Below q.now (length q.now) most_depth × (length q.now ≤ most_rows) }
    ensures { sums.new ≡ rows_from (sum_in step own q.now (weights own.peak step)) (lead - 1) (length sums.old) }
{
    sums.fill(0);
    let count = (5 * own.peak / step) as usize;
    let mut w = [0u32; HAND];
    let mut line = 0;
    let mut done = 0;
    // Not by `step_by`, nor a plain difference for `a`: either keeps the loop inside out of vectors, the second since the start then
    // falls by the same number at each turn.
    while done < count {
        line = hydrograph::fill_weights(own.peak, step, count, done, line, &mut w);
        let a = lead.saturating_sub(done + HAND);
        lay(sums, &q[a..], &w);
        done += HAND;
    }
}
