// The tests of one record at a place, each a rule's refusal.
ghost use Rattle.std.specs.Prelude.{◌≡◌, map, ◌≤◌, length};
ghost use Rattle.laws.specs.Limits.{most_step};
ghost use Rattle.travel.specs.Needs.{TimeOk};
ghost use Rattle.hydrograph.specs.InflowRows.{concentration_good, peak_good, weights_good};
ghost use Rattle.refusals.specs.declared.Rule.TheVariants.{Patches, Segments, Concentration, Coarse, Weights};
ghost use Rattle.refusals.specs.Refusals.{charge, first_refusal};
ghost use Rattle.subarea.specs.Records.{width, patches_pass, segments_pass};
ghost use Rattle.subarea.specs.Needs.{RoutedOk};
ghost use Rattle.checks.specs.Order.{limit_tests, timing_tests};
ghost use Rattle.checks.specs.Needs.{over_record};

use refusals::{Refusal, Rule};
use subarea::Setup;

pub(crate) fn patches_check(own: &[u64], place: u64) -> Result<(), Refusal>
    requires { length own.now ≡ width }
    ensures { result ≡ charge Patches (patches_pass own.now) place }
{
    Refusal::charge(Rule::Patches, subarea::patches_pass(own), place)
}

pub(crate) fn segments_check(rule: u64, own: &[u64], place: u64) -> Result<(), Refusal>
    requires { length own.now ≡ width }
    ensures { result ≡ charge Segments (segments_pass rule own.now) place }
{
    Refusal::charge(Rule::Segments, subarea::segments_pass(rule, own), place)
}

pub(crate) fn concentration_check(time: u64, place: u64) -> Result<(), Refusal>
    ensures { result ≡ charge Concentration (concentration_good time) place }
{
    Refusal::charge(
        Rule::Concentration,
        hydrograph::concentration_good(time),
        place,
    )
}

pub(crate) fn peak_check(setup: Setup, time: u64, place: u64) -> Result<(), Refusal>
    requires { TimeOk time }
    ensures { result ≡ charge Coarse (peak_good setup.step time) place }
{
    Refusal::charge(Rule::Coarse, hydrograph::peak_good(setup.step, time), place)
}

pub(crate) fn weights_check(setup: Setup, time: u64, place: u64) -> Result<(), Refusal>
    requires { (setup.step ≤ most_step) × TimeOk time }
    ensures { result ≡ charge Weights (weights_good setup.step time) place }
{
    Refusal::charge(
        Rule::Weights,
        hydrograph::weights_good(setup.step, time),
        place,
    )
}

// Refusals 6 and 7 of one record.
pub fn limits(rule: u64, own: &[u64], place: u64) -> Result<(), Refusal>
    requires { length own.now ≡ width }
    ensures { result ≡ first_refusal (map (over_record own.now place) (limit_tests rule)) }
{
    patches_check(own, place)?;
    segments_check(rule, own, place)
}

// Refusals 9 to 11 of one record.
#[tactic(auto, using(crate::proofs::Ready::time_fits))]
pub fn timing(setup: Setup, own: &[u64], place: u64) -> Result<(), Refusal>
    requires { (setup.step ≤ most_step) × ((length own.now ≡ width) × RoutedOk own.now) }
    ensures { result ≡ first_refusal (map (over_record own.now place) (timing_tests setup)) }
{
    let time = subarea::time(own);
    concentration_check(time, place)?;
    peak_check(setup, time, place)?;
    weights_check(setup, time, place)
}
