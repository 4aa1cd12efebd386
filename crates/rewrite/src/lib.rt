// What an edit that nothing refuses writes, and what it tells.
// Units: rain in thousandths of an inch, inflow volumes and storage in thousandths of a cubic foot, outflow in thousandths
// of a cfs; half is half the step, in seconds.
#![tactic(auto)]

ghost use Rattle.std.specs.Prelude.{◌≡◌, ◌/◌, ◌≤◌, None, drop};
ghost use Rattle.rows.specs.Routing.{over_row, state_before};
ghost use Rattle.checks.specs.Site.{rows_now, found, left};
ghost use Rattle.alter.specs.Altering.{first_changed, changed_at};
ghost use Rattle.rewrite.specs.Rewriting.{rerouted, change, told, edited_of};
ghost use Rattle.rewrite.specs.Needs.{new_by, SwapFit, SmallOk};

use pond::Pond;
use rows::RowFigures;
use study::Figures;
use sums::Numbers;

// The figures over the rows then standing, the first changed row (from 1), and the changes of peak outflow and of total
// released, new less old.
#[derive(Clone, Copy, Debug, Default, PartialEq, Eq)]
pub struct Edited {
    pub figures: Figures,
    pub changed: Option<u64>,
    pub peak: i64,
    pub released: i64,
}

// New less old, with its sign.
fn difference(new: u64, old: u64) -> i64
    requires { (new ≤ 1000000000000000000) × (old ≤ 1000000000000000000) }
    ensures { result ≡ change new old }
{
    (new as i64) - (old as i64)
}

// The first changed row, from 1, of m rows, of which those before row a (from 0) stand as they were.
fn changed_row(a: usize, m: usize) -> Option<u64>
    ensures { result ≡ changed_at a m }
{
    if a < m { Some(a as u64 + 1) } else { None }
}

// New and old figures put together.
fn tell(own: RowFigures, old: RowFigures, classes: curve::Classes, changed: Option<u64>) -> Edited
    requires { SmallOk own × SmallOk old }
    ensures { result ≡ told classes own old changed }
{
    let figures = study::figures_with(classes, own);
    Edited {
        figures,
        changed,
        peak: difference(own.kept.peak, old.kept.peak),
        released: difference(own.kept.released, old.kept.released),
    }
}

// Writes the rows from row a on, which all pass, and gives what is told of them. The old figures are read before a row is
// written; the rows before a are not lent onward.
pub fn finish(
    step: u64,
    rain: &[u64],
    pond: &Pond<'_>,
    old: Numbers,
    own: Numbers,
    inflow: &mut [u64],
    outflow: &mut [u64],
    storage: &mut [u64],
    a: usize,
    classes: curve::Classes,
) -> Edited
    requires swap_fit { SwapFit step rain.now pond.now.table.numbers.now old own (rows_now inflow.old outflow.old storage.old) }
    requires half { pond.now.half ≡ step / 2 }
    requires a_value { a ≡ first_changed inflow.old (new_by step rain.now old own inflow.old) }
    requires inflow_value { over_row (step / 2) pond.now.table.numbers.now (state_before outflow.old storage.old a) (drop a (new_by step rain.now old own inflow.old)) ≡ None }
    ensures value { result ≡ edited_of (step / 2) classes pond.now.table.numbers.now (found inflow.old outflow.old storage.old) (rerouted (step / 2) pond.now.table.numbers.now (found inflow.old outflow.old storage.old) (new_by step rain.now old own inflow.old)) }
    ensures storage_value { left inflow.new outflow.new storage.new ≡ rerouted (step / 2) pond.now.table.numbers.now (found inflow.old outflow.old storage.old) (new_by step rain.now old own inflow.old) }
{
    let before = rows::figures_of(pond, inflow, outflow, storage);
    alter::swap_rows(old, own, step, rain, a, &mut inflow[a..]);
    let after = rows::write_from(pond, inflow, outflow, storage, a);
    tell(after, before, classes, changed_row(a, inflow.len()))
}
