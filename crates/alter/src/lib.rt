// What an edit works out before it routes: the checks up to 13, the new inflow rows, the first changed row, the class areas
// of the altered list.
// Units: rain in thousandths of an inch, inflow volumes in thousandths of a cubic foot; a place counts the subareas from 1.
#![tactic(auto)]

pub mod order;

ghost use Rattle.std.specs.Prelude.{◌≡◌, ℕ, ◌+◌, ◌-◌, ◌≤◌, length, eqb};
ghost use Rattle.laws.specs.Search.{first_bad_of};
ghost use Rattle.laws.specs.Filled.{Filled};
ghost use Rattle.curve.specs.declared.Classes.{Classes};
ghost use Rattle.laws.specs.Limits.{most_rows};
ghost use Rattle.hydrograph.specs.Needs.{RainOk};
ghost use Rattle.rows.specs.Figures.{at};
ghost use Rattle.sums.specs.Needs.{block_rows, NumbersOk};
ghost use Rattle.parts.specs.Needs.{part_by};
ghost use Rattle.subarea.specs.Records.{width, records_in};
ghost use Rattle.subarea.specs.Needs.{RecordsOk};
ghost use Rattle.study.specs.Study.{classes_all};
ghost use Rattle.alter.specs.Altering.{altered, old_record, swapped, first_changed};
ghost use Rattle.alter.specs.Needs.{classes_swapped, SwapOk, GroundOk, PartsOk, PartsFit};

use sums::Numbers;

// Turns parts into what is left of the inflow without them.
fn take_away(inflow: &[u64], rows: &mut [u64])
    requires { PartsOk inflow.now rows.old }
    ensures filled { Filled (λ (i : ℕ). at inflow.now i - at rows.old i) (length inflow.now) rows.new }
    ensures rows_len { length rows.new ≡ length inflow.now }
{
    // By place: after `iter_mut` with a second list nothing is known of what was written.
    for i in 0..inflow.len() {
        rows[i] = inflow[i] - rows[i];
    }
}

// Writes the new inflow of a block of rows, those after row `from`: the inflow found, less the old record's parts, with the
// fresh one's.
pub fn swap_block(
    old: Numbers,
    fresh: Numbers,
    step: u64,
    rain: &[u64],
    from: usize,
    inflow: &[u64],
    rows: &mut [u64],
)
    requires numbers_ok { NumbersOk step old × (NumbersOk step fresh × (RainOk rain.now × PartsFit (part_by step rain.now old) from inflow.now)) }
    requires rows_len { (length rows.old ≡ length inflow.now) × ((1 ≤ length inflow.now) × ((length inflow.now ≤ block_rows) × (from + length inflow.now ≤ most_rows))) }
    ensures { rows.new ≡ swapped (part_by step rain.now old) (part_by step rain.now fresh) (from + 1) inflow.now }
{
    rows.fill(0);
    parts::add_block(old, step, rain, from, rows);
    take_away(inflow, rows);
    parts::add_block(fresh, step, rain, from, rows);
}

// Writes the new inflow over that found, of rows after row `from`, block by block.
pub fn swap_rows(
    old: Numbers,
    fresh: Numbers,
    step: u64,
    rain: &[u64],
    from: usize,
    inflow: &mut [u64],
)
    requires numbers_ok { NumbersOk step old × (NumbersOk step fresh × (RainOk rain.now × PartsFit (part_by step rain.now old) from inflow.old)) }
    requires inflow_bound { from + length inflow.old ≤ most_rows }
    ensures { inflow.new ≡ swapped (part_by step rain.now old) (part_by step rain.now fresh) (from + 1) inflow.old }
{
    // By hand, not by `chunks_mut`: of what that has lent a proof knows no more than the length.
    let m = inflow.len();
    let mut at = 0;
    while at < m {
        let e = m.min(at + sums::BLOCK);
        swap_in_place(old, fresh, step, rain, from + at, &mut inflow[at..e]);
        at = e;
    }
}

// The first row (from 0) whose inflow the fresh record changes, or the number of rows: looked for block by block. Not an
// `Option`: so many rows stand as they were, and an edit splits its lists there.
pub fn first_swapped(old: Numbers, fresh: Numbers, step: u64, rain: &[u64], inflow: &[u64]) -> usize
    requires numbers_ok { NumbersOk step old × (NumbersOk step fresh × (RainOk rain.now × PartsFit (part_by step rain.now old) 0 inflow.now)) }
    requires inflow_len_bound { length inflow.now ≤ most_rows }
    ensures { result ≡ first_changed inflow.now (swapped (part_by step rain.now old) (part_by step rain.now fresh) 1 inflow.now) }
{
    let mut rows = [0u64; sums::BLOCK];
    let mut at = 0;
    for block in inflow.chunks(sums::BLOCK) {
        let new = &mut rows[..block.len()];
        swap_block(old, fresh, step, rain, at, block, new);
        if let Some(k) = first_difference(block, new) {
            return at + k;
        }
        at += block.len();
    }
    at
}

// Writes the new inflow of a block over that found.
fn swap_in_place(
    old: Numbers,
    fresh: Numbers,
    step: u64,
    rain: &[u64],
    from: usize,
    inflow: &mut [u64],
)
    requires numbers_ok { NumbersOk step old × (NumbersOk step fresh × (RainOk rain.now × PartsFit (part_by step rain.now old) from inflow.old)) }
    requires in_bounds { (1 ≤ length inflow.old) × ((length inflow.old ≤ block_rows) × (from + length inflow.old ≤ most_rows)) }
    ensures { inflow.new ≡ swapped (part_by step rain.now old) (part_by step rain.now fresh) (from + 1) inflow.old }
{
    let mut rows = [0u64; sums::BLOCK];
    let new = &mut rows[..inflow.len()];
    swap_block(old, fresh, step, rain, from, inflow, new);
    inflow.copy_from_slice(new);
}

// The first row (from 0) whose inflow volume differs.
fn first_difference(inflow: &[u64], new: &[u64]) -> Option<usize>
    requires { length new.now ≡ length inflow.now }
    ensures { result ≡ first_bad_of (λ i. eqb (at inflow.now i) (at new.now i)) (length inflow.now) }
{
    (0..inflow.len()).position(|i| inflow[i] != new[i])
}

// The same, or the number of rows where none differs: so many rows stand as they were. Called nowhere: docs/PROMISES.md names its
// theorem.
#[tactic(auto, using(crate::proofs::Blocks::first_found))]
pub fn first_changed(inflow: &[u64], new: &[u64]) -> usize
    requires { length new.now ≡ length inflow.now }
    ensures { result ≡ first_changed inflow.now new.now }
{
    first_difference(inflow, new).unwrap_or(inflow.len())
}

// Class areas, one record's taken away and another's added.
fn swap_classes(all: curve::Classes, old: curve::Classes, own: curve::Classes) -> curve::Classes
    requires { SwapOk all old own }
    ensures { result ≡ classes_swapped all old own }
{
    all - old + own
}

// The record at a place of the list.
pub(crate) fn old_record(subareas: &[u64], place: u64) -> &[u64]
    requires { RecordsOk subareas.now × ((1 ≤ place) × (place ≤ records_in subareas.now)) }
    ensures own { result.now ≡ old_record subareas.now place }
    ensures whole { length result.now ≡ width }
{
    &subarea::records(subareas)[place as usize - 1]
}

// The area of each class over the altered list, which is never made.
pub fn altered_classes(subareas: &[u64], place: u64, fresh: &[u64]) -> curve::Classes
    requires { GroundOk subareas.now place fresh.now }
    ensures { result ≡ classes_all (altered subareas.now place fresh.now) }
{
    let all = study::all_classes(subareas);
    let old = subarea::classes(old_record(subareas, place));
    let own = subarea::classes(fresh);
    swap_classes(all, old, own)
}
