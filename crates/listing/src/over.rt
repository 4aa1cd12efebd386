// Refusal 14, looked for block by block, and only until no later row can go over.
ghost use Rattle.std.specs.Prelude.{◌≡◌, ◌+◌, ◌≤◌, ◌<◌, IfSome};
ghost use Rattle.laws.specs.Limits.{most_rows};
ghost use Rattle.laws.specs.Listed.{rows_from};
ghost use Rattle.hydrograph.specs.Needs.{RainOk};
ghost use Rattle.rows.specs.Routing.{over_row};
ghost use Rattle.sums.specs.Needs.{block_rows};
ghost use Rattle.checks.specs.Needs.{ListOk};
ghost use Rattle.inflow.specs.Inflow.{inflow_at, inflow_rows};
ghost use Rattle.rows.specs.Needs.{tide_of};
ghost use Rattle.listing.specs.Needs.{Listed};

use crate::{Shapes, fill_block, most_inflow};
use rows::{Level, Tide};
use subarea::Setup;

// Runs a block of n rows dry, those after row `from`.
fn dry_block(
    setup: Setup,
    rain: &[u64],
    subareas: &[u64],
    level: &Level<'_>,
    shapes: &Shapes,
    from: usize,
    n: usize,
) -> Tide
    requires list_ok { ListOk setup subareas.now × (RainOk rain.now × Listed setup subareas.now shapes.now) }
    requires le_n { (1 ≤ n) × ((n ≤ block_rows) × (from + n ≤ most_rows)) }
    ensures { result ≡ tide_of level.now.pond.half level.now.pond.table.numbers.now level.now.state (rows_from (inflow_at setup rain.now subareas.now) (from + 1) n) }
{
    let mut rows = [0u64; sums::BLOCK];
    fill_block(setup, rain, subareas, shapes, from, &mut rows[..n]);
    rows::tide_after(level, &rows[..n])
}

// The first of m rows that goes over (from 0), from a level on. What the pond holds and all that can still come is more
// than any later X: once that is not above the last, no row is looked at.
pub fn over_row(
    setup: Setup,
    rain: &[u64],
    subareas: &[u64],
    level: &Level<'_>,
    shapes: &Shapes,
    m: usize,
) -> Option<usize>
    requires list_ok { ListOk setup subareas.now × (RainOk rain.now × Listed setup subareas.now shapes.now) }
    requires few { m ≤ most_rows }
    ensures value { result ≡ over_row level.now.pond.half level.now.pond.table.numbers.now level.now.state (inflow_rows setup rain.now subareas.now m) }
    ensures row { IfSome result (λ i. i < m) }
{
    let top = level.pond.last_sum();
    let mut last = level.state;
    let mut come = most_inflow(setup, rain, subareas);
    // By hand: no list stands behind the blocks, and `step_by` needs the same least.
    let mut from = 0;
    while from < m {
        if last.arrive(level.pond.half, come) <= top {
            return None;
        }
        let n = sums::BLOCK.min(m - from);
        let tide = dry_block(
            setup,
            rain,
            subareas,
            &Level::new(&level.pond, last),
            shapes,
            from,
            n,
        );
        if let Some(i) = tide.over {
            return Some(from + i);
        }
        come -= tide.inflow;
        last = tide.last;
        from += n;
    }
    None
}
