// The refusals of an edit up to 13, in their order.
ghost use Rattle.std.specs.Prelude.{◌≡◌, length};
ghost use Rattle.checks.specs.Site.{site, found};
ghost use Rattle.subarea.specs.Records.{width};
ghost use Rattle.refusals.specs.declared.Rule.TheVariants.{Place};
ghost use Rattle.refusals.specs.Refusals.{unless, first_refusal};
ghost use Rattle.checks.specs.Order.{list_lines};
ghost use Rattle.alter.specs.Altering.{altered, place_good, edit_check_lines};
ghost use Rattle.alter.specs.Needs.{altered_area, PlaceOk, PassedOk, GroundOk};

use refusals::{Refusal, Rule};
use subarea::Setup;

// 15
#[tactic(auto, unfolding(crate::specs::Altering::place_good))]
fn place_check(subareas: &[u64], place: u64) -> Result<(), Refusal>
    ensures { result ≡ unless Place (place_good subareas.now place) }
{
    let n = subarea::records(subareas).len();
    Refusal::charge(Rule::Place, (1..=n as u64).contains(&place), 0)
}

// The area of the altered list, which is never made.
fn altered_area(subareas: &[u64], place: u64, fresh: &[u64]) -> u64
    requires { GroundOk subareas.now place fresh.now }
    ensures { result ≡ altered_area subareas.now place fresh.now }
{
    let old = subarea::ground(crate::old_record(subareas, place));
    let own = subarea::ground(fresh);
    checks::list::all_area(subareas) - old.area + own.area
}

// Refusals 6 to 11 on the altered list, which is never made: the list as it stands has passed them.
fn altered_checks(setup: Setup, subareas: &[u64], place: u64, fresh: &[u64]) -> Result<(), Refusal>
    requires { PlaceOk subareas.now place fresh.now × PassedOk setup subareas.now }
    ensures { result ≡ first_refusal (list_lines setup (altered subareas.now place fresh.now)) }
{
    checks::record::limits(setup.rule, fresh, place)?;
    checks::list::area_check(altered_area(subareas, place, fresh))?;
    checks::record::timing(setup, fresh, place)
}

// Refusals 1 to 5 with 20 after 2 and 19 after 3, 15, 6 to 11 on both lists, 12 and 13.
pub fn edit_checks(
    setup: Setup,
    rain: &[u64],
    subareas: &[u64],
    pond: &[u64],
    inflow: &[u64],
    outflow: &[u64],
    storage: &[u64],
    place: u64,
    fresh: &[u64],
) -> Result<(), Refusal>
    requires { length fresh.now ≡ width }
    ensures { result ≡ first_refusal (edit_check_lines (site setup rain.now subareas.now pond.now) (found inflow.now outflow.now storage.now) place fresh.now) }
{
    checks::run_checks(setup, rain, subareas, inflow, outflow, storage)?;
    place_check(subareas, place)?;
    checks::list::list_checks(setup, subareas)?;
    altered_checks(setup, subareas, place, fresh)?;
    checks::pond_checks(setup.step / 2, pond)
}
