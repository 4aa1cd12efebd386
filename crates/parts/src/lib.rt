// Parts of rows: a block of rows at a time on the stack, or many in lists that are lent to be worked in.
// Units: time to peak and step in seconds, area in hundredths of an acre, rain in thousandths of an inch,
// depths in millionths of an inch, volumes in thousandths of a cubic foot.
#![tactic(auto)]

ghost use Rattle.std.specs.Prelude.{◌≡◌, ◌+◌, ◌-◌, ◌≤◌, length, eqb};
ghost use Rattle.laws.specs.Limits.{most_rows};
ghost use Rattle.laws.specs.Listed.{plus};
ghost use Rattle.curve.specs.Needs.{CurveOk};
ghost use Rattle.hydrograph.specs.InflowRows.{runoff_at, weights};
ghost use Rattle.hydrograph.specs.Needs.{RainOk, RoomOk};
ghost use Rattle.sums.specs.Needs.{block_rows, NumbersOk};
ghost use Rattle.parts.specs.Needs.{part_by, volume_between, SumsOk};

use sums::{Numbers, depths};

// Adds to each row the volume between the sum before it and its own. Where the two are the same nothing is divided.
fn add_volumes(own: Numbers, sums: &[u64], rows: &mut [u64])
    requires { SumsOk own sums.now × (RoomOk rows.old × (length sums.now ≡ length rows.old + 1)) }
    ensures { rows.new ≡ plus (volume_between own sums.now) 1 rows.old }
{
    let mut sum = sums[0];
    let mut before = hydrograph::volume(own.area, sum / own.total);
    // By place: after `iter_mut` with a second list nothing is known of what was written.
    for i in 0..rows.len() {
        let next = sums[i + 1];
        if next != sum {
            let through = hydrograph::volume(own.area, next / own.total);
            rows[i] += through - before;
            before = through;
            sum = next;
        }
    }
}

// Does the same depth stand wherever the rows after row `from`, n of them, look? Then none of them has a part.
fn still(own: Numbers, step: u64, rain: &[u64], from: usize, n: usize) -> bool
    requires { NumbersOk step own × (RainOk rain.now × ((from ≤ most_rows) × (n ≤ most_rows))) }
    ensures { result ≡ eqb (runoff_at own.tenths rain.now (from + n)) (runoff_at own.tenths rain.now (from + 1 - weights own.peak step)) }
{
    let count = (5 * own.peak / step) as usize;
    let first = (from + 1).saturating_sub(count);
    depths::depth_at(own.tenths, rain, from + n) == depths::depth_at(own.tenths, rain, first)
}

// Adds a subarea's parts to a block of rows, those after row `from`.
pub fn add_block(own: Numbers, step: u64, rain: &[u64], from: usize, rows: &mut [u64])
    requires { NumbersOk step own × (RainOk rain.now × (RoomOk rows.old × ((1 ≤ length rows.old) × ((length rows.old ≤ block_rows) × (from + length rows.old ≤ most_rows))))) }
    ensures { rows.new ≡ plus (part_by step rain.now own) (from + 1) rows.old }
{
    let n = rows.len();
    if still(own, step, rain, from, n) {
        return;
    }
    let mut list = [0u64; sums::SUMS];
    let e = n + 1;
    sums::block_sums(own, step, rain, from, &mut list[..e]);
    add_volumes(own, &list[..e], rows);
}

// Adds a subarea's parts to rows, those after row `from`, block by block. Not by `chunks_mut`, which leaves nothing known of the
// rows, nor by `step_by`, whose end is told twice and which needs the same least.
pub fn add_parts(own: Numbers, step: u64, rain: &[u64], from: usize, rows: &mut [u64])
    requires { NumbersOk step own × (RainOk rain.now × (RoomOk rows.old × (from + length rows.old ≤ most_rows))) }
    ensures { rows.new ≡ plus (part_by step rain.now own) (from + 1) rows.old }
{
    let m = rows.len();
    let mut at = 0;
    while at < m {
        let e = (at + sums::BLOCK).min(m);
        add_block(own, step, rain, from + at, &mut rows[at..e]);
        at = e;
    }
}

// Adds a subarea's parts to rows after the first `lead` that follow row `from`: so far on no row asks for a depth of row `from`
// or before. The depths are worked out in one list, the rows' sums in another.
fn add_far(
    own: Numbers,
    step: u64,
    rain: &[u64],
    from: usize,
    lead: usize,
    rows: &mut [u64],
    q: &mut [u64],
    sums: &mut [u64],
)
    requires numbers_ok { NumbersOk step own × (RainOk rain.now × (RoomOk rows.old × (from + (lead + length rows.old) ≤ most_rows))) }
    requires step_bound { (weights own.peak step + 7 ≤ lead) × ((lead + length rows.old ≤ length q.old) × (length rows.old + 1 ≤ length sums.old)) }
    ensures { rows.new ≡ plus (part_by step rain.now own) (from + lead + 1) rows.old }
{
    let n = rows.len() + 1;
    let end = lead + rows.len();
    depths::fill_depths(own.tenths, rain, from + 1, 0, &mut q[..end]);
    sums::far_sums(own, step, &q[..end], lead, &mut sums[..n]);
    add_volumes(own, &sums[..n], rows);
}

// Adds a subarea's parts to rows, those after row `from`: the first by blocks, for they ask for depths before `from`; the rest
// in two lists as long as the rows, of which nothing is needed any more. Once the storm has passed no row has a part.
pub fn add_from(
    own: Numbers,
    step: u64,
    rain: &[u64],
    from: usize,
    rows: &mut [u64],
    q: &mut [u64],
    sums: &mut [u64],
)
    requires numbers_ok { NumbersOk step own × (RainOk rain.now × (RoomOk rows.old × (from + length rows.old ≤ most_rows))) }
    requires rain_len_bound { (length rain.now ≤ most_rows + 1) × ((length q.old ≡ length rows.old) × (length sums.old ≡ length rows.old)) }
    ensures rows_after { rows.new ≡ plus (part_by step rain.now own) (from + 1) rows.old }
    ensures q_len_unchanged { (length q.new ≡ length q.old) × (length sums.new ≡ length sums.old) }
{
    let count = (5 * own.peak / step) as usize;
    let lead = count + hydrograph::HAND;
    let end = rows.len().min((rain.len() + count).saturating_sub(from));
    if end <= lead {
        add_parts(own, step, rain, from, &mut rows[..end]);
        return;
    }
    add_parts(own, step, rain, from, &mut rows[..lead]);
    add_far(own, step, rain, from, lead, &mut rows[lead..end], q, sums);
}

// How many of the first rows, of at most m, have no runoff before or in them. A `for`, since the promise of a `position` says what
// was asked of each place, and its zeros did not prove from that.
#[tactic(auto, unfolding(hydrograph::specs::InflowRows::runoff_at))]
fn dry_rows(tenths: u64, rain: &[u64], m: usize) -> usize
    requires { CurveOk tenths × (RainOk rain.now × (m ≤ most_rows)) }
    ensures { (result ≤ m) × (runoff_at tenths rain.now result ≡ 0) }
{
    for t in 0..m {
        if depths::depth_at(tenths, rain, t + 1) != 0 {
            return t;
        }
    }
    m
}

// Adds a subarea's parts to all rows, working in two lists as long as the rows, of which nothing is needed any more. Rows
// before any runoff have none.
pub fn add_all(
    own: Numbers,
    step: u64,
    rain: &[u64],
    rows: &mut [u64],
    q: &mut [u64],
    sums: &mut [u64],
)
    requires numbers_ok { NumbersOk step own × (RainOk rain.now × (RoomOk rows.old × (length rows.old ≤ most_rows))) }
    requires rain_len_bound { (length rain.now ≤ most_rows + 1) × ((length q.old ≡ length rows.old) × (length sums.old ≡ length rows.old)) }
    ensures rows_after { rows.new ≡ plus (part_by step rain.now own) 1 rows.old }
    ensures q_len_unchanged { (length q.new ≡ length q.old) × (length sums.new ≡ length sums.old) }
{
    let dry = dry_rows(own.tenths, rain, rows.len());
    add_from(
        own,
        step,
        rain,
        dry,
        &mut rows[dry..],
        &mut q[dry..],
        &mut sums[dry..],
    );
}
