// Refusal 14 of an edit, looked for block by block from the first changed row, and only until no later row can go over.
ghost use Rattle.std.specs.Prelude.{◌≡◌, ◌≤◌, ◌<◌, IfSome, length};
ghost use Rattle.rows.specs.Routing.{over_row, total};
ghost use Rattle.rows.specs.Needs.{tide_of};
ghost use Rattle.sums.specs.Needs.{block_rows};
ghost use Rattle.fitting.specs.Needs.{new_after, TailFit};

use rows::{Level, Tide};
use sums::Numbers;

// Runs a block of rows dry with their new inflow, those after row `from`.
fn dry_block(
    old: Numbers,
    fresh: Numbers,
    step: u64,
    rain: &[u64],
    level: &Level<'_>,
    from: usize,
    inflow: &[u64],
) -> Tide
    requires tail_fit { TailFit step rain.now level.now.pond.table.numbers.now old fresh from inflow.now }
    requires in_bounds { (1 ≤ length inflow.now) × (length inflow.now ≤ block_rows) }
    ensures { result ≡ tide_of level.now.pond.half level.now.pond.table.numbers.now level.now.state (new_after step rain.now old fresh from inflow.now) }
{
    let n = inflow.len();
    let mut rows = [0u64; sums::BLOCK];
    alter::swap_block(old, fresh, step, rain, from, inflow, &mut rows[..n]);
    rows::tide_after(level, &rows[..n])
}

// The first row that goes over of those after row `from` (the first of them is 0), from a level on; `all` is no less than their
// new inflow.
pub fn over_from(
    old: Numbers,
    fresh: Numbers,
    step: u64,
    rain: &[u64],
    level: &Level<'_>,
    from: usize,
    inflow: &[u64],
    all: u64,
) -> Option<usize>
    requires tail_fit { TailFit step rain.now level.now.pond.table.numbers.now old fresh from inflow.now }
    requires all_bound { (all ≤ 1000000000000000000) × (total (new_after step rain.now old fresh from inflow.now) ≤ all) }
    ensures value { result ≡ over_row level.now.pond.half level.now.pond.table.numbers.now level.now.state (new_after step rain.now old fresh from inflow.now) }
    ensures row { IfSome result (λ i. i < length inflow.now) }
{
    let top = level.pond.last_sum();
    let mut last = level.state;
    let mut come = all;
    let mut at = 0;
    for block in inflow.chunks(sums::BLOCK) {
        if last.arrive(level.pond.half, come) <= top {
            return None;
        }
        let tide = dry_block(
            old,
            fresh,
            step,
            rain,
            &Level::new(&level.pond, last),
            from + at,
            block,
        );
        if let Some(i) = tide.over {
            return Some(at + i);
        }
        come -= tide.inflow;
        last = tide.last;
        at += block.len();
    }
    None
}
