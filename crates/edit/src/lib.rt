// An edit on flat numbers: one subarea of a list replaced, and the rows that stand on the list altered to match.
// Units: rain in thousandths of an inch, inflow volumes and storage in thousandths of a cubic foot, outflow in thousandths
// of a cfs; half is half the step, in seconds; a place counts the subareas from 1.
#![tactic(auto)]

ghost use Rattle.std.specs.Prelude.{◌≡◌, ◌/◌, ◌≤◌};
ghost use Rattle.rows.specs.Routing.{total};
ghost use Rattle.checks.specs.Site.{site_now, rows_now, site, found, left};
ghost use Rattle.rewrite.specs.Needs.{new_by, SwapFit};
ghost use Rattle.edit.specs.Edit.{edit_refusal, edit_answer, edit_rows, edit_refusal_in, edit_values_in, edit_values};
ghost use Rattle.edit.specs.Needs.{settled_from, settled_rows_from, refitted, refitted_rows, EditOk};

use pond::Pond;
use refusals::{Refusal, Rule};
use rewrite::Edited;
use rows::Level;
use subarea::Setup;
use sums::Numbers;

// Refusal 14, or the rows from the first changed one on and what is told of them. Nothing is written before every row is
// known to pass. `all` is no less than all the new inflow.
fn settle(
    step: u64,
    rain: &[u64],
    pond: &Pond<'_>,
    old: Numbers,
    own: Numbers,
    all: u64,
    inflow: &mut [u64],
    outflow: &mut [u64],
    storage: &mut [u64],
    classes: curve::Classes,
) -> Result<Edited, Refusal>
    requires swap_fit { SwapFit step rain.now pond.now.table.numbers.now old own (rows_now inflow.old outflow.old storage.old) }
    requires half { pond.now.half ≡ step / 2 }
    requires all_bound { (all ≤ 1000000000000000000) × (total (new_by step rain.now old own inflow.old) ≤ all) }
    ensures value { result ≡ settled_from (step / 2) classes pond.now.table.numbers.now (found inflow.old outflow.old storage.old) (new_by step rain.now old own inflow.old) }
    ensures storage_value { left inflow.new outflow.new storage.new ≡ settled_rows_from (step / 2) pond.now.table.numbers.now (found inflow.old outflow.old storage.old) (new_by step rain.now old own inflow.old) }
{
    let a = alter::first_swapped(old, own, step, rain, inflow);
    let state = rows::state_before(outflow, storage, a);
    let come = all - rows::sum_of(&inflow[..a]);
    let level = Level::new(pond, state);
    let over = fitting::over::over_from(old, own, step, rain, &level, a, &inflow[a..], come);
    if let Some(i) = over {
        return Err(Refusal {
            rule: Rule::Over,
            place: (a + i) as u64 + 1,
        });
    }
    Ok(rewrite::finish(
        step, rain, pond, old, own, inflow, outflow, storage, a, classes,
    ))
}

// What the checks before 16 leave to do.
fn work(
    setup: Setup,
    rain: &[u64],
    subareas: &[u64],
    pond: &[u64],
    inflow: &mut [u64],
    outflow: &mut [u64],
    storage: &mut [u64],
    place: u64,
    fresh: &[u64],
) -> Result<Edited, Refusal>
    requires { EditOk (site_now setup rain.now subareas.now pond.now) (rows_now inflow.old outflow.old storage.old) place fresh.now }
    ensures value { result ≡ refitted (site setup rain.now subareas.now pond.now) (found inflow.old outflow.old storage.old) place fresh.now }
    ensures storage_value { left inflow.new outflow.new storage.new ≡ refitted_rows (site setup rain.now subareas.now pond.now) (found inflow.old outflow.old storage.old) place fresh.now }
{
    let record = &subarea::records(subareas)[place as usize - 1];
    let step = setup.step;
    let pond = Pond::new(pond, step / 2);
    let old = inflow::numbers(setup, record);
    let own = inflow::numbers(setup, fresh);
    let fit = fitting::fit_rows(old, step, rain, inflow);
    refusals::refused_at(Rule::InflowRow, fit.bad)?;
    checks::forged_check(&pond, outflow, storage)?;
    let all = fit.left + inflow::most_volume(own.tenths, own.area, rain);
    let classes = alter::altered_classes(subareas, place, fresh);
    settle(
        step, rain, &pond, old, own, all, inflow, outflow, storage, classes,
    )
}

// An edit: refused by rule and place with every list as it was, or done with the rows from the first changed one on
// written. The subareas are only read.
pub fn run(
    setup: Setup,
    rain: &[u64],
    subareas: &[u64],
    pond: &[u64],
    inflow: &mut [u64],
    outflow: &mut [u64],
    storage: &mut [u64],
    place: u64,
    fresh: &[u64; subarea::WIDTH],
) -> Result<Edited, Refusal>
    ensures value { result ≡ edit_answer (site setup rain.now subareas.now pond.now) (found inflow.old outflow.old storage.old) place fresh.now }
    ensures storage_value { left inflow.new outflow.new storage.new ≡ edit_rows (site setup rain.now subareas.now pond.now) (found inflow.old outflow.old storage.old) place fresh.now }
    ensures result_value { edit_refusal_in result ≡ edit_refusal (site setup rain.now subareas.now pond.now) (found inflow.old outflow.old storage.old) place fresh.now }
    ensures result_value_2 { edit_values_in result ≡ edit_values (site setup rain.now subareas.now pond.now) (found inflow.old outflow.old storage.old) place fresh.now }
{
    alter::order::edit_checks(
        setup, rain, subareas, pond, inflow, outflow, storage, place, fresh,
    )?;
    work(
        setup, rain, subareas, pond, inflow, outflow, storage, place, fresh,
    )
}
