// Refusals 6 to 11 over the list of subareas, each number over the whole list before the next.
ghost use Rattle.std.specs.Prelude.{◌≡◌, map, ◌≤◌, leb, not, position};
ghost use Rattle.laws.specs.Limits.{most_step, most_area};
ghost use Rattle.refusals.specs.declared.Rule.TheVariants.{Area};
ghost use Rattle.subarea.specs.Records.{patches_pass, segments_pass};
ghost use Rattle.refusals.specs.Refusals.{unless, first_refusal};
ghost use Rattle.subarea.specs.Needs.{RecordsOk, AllPatches, AllSegments};
ghost use Rattle.checks.specs.Order.{all_area, over_list, limit_tests, timing_tests, list_lines};

use crate::record;
use laws::limits;
use refusals::{Refusal, Rule};
use subarea::Setup;

// The first record whose patches do not pass, from 0.
fn first_patches(records: &[[u64; subarea::WIDTH]]) -> Option<usize>
    ensures { result ≡ position (λ own. not (patches_pass own)) records.now }
{
    records.iter().position(|own| !subarea::patches_pass(own))
}

// The first whose segments do not, by a sheet rule.
fn first_segments(rule: u64, records: &[[u64; subarea::WIDTH]]) -> Option<usize>
    ensures { result ≡ position (λ own. not (segments_pass rule own)) records.now }
{
    records
        .iter()
        .position(|own| !subarea::segments_pass(rule, own))
}

// Refusals 6 and 7.
fn limit_checks(rule: u64, subareas: &[u64]) -> Result<(), Refusal>
    requires { RecordsOk subareas.now }
    ensures { result ≡ first_refusal (map (over_list subareas.now) (limit_tests rule)) }
{
    let records = subarea::records(subareas);
    refusals::refused_at(Rule::Patches, first_patches(records))?;
    refusals::refused_at(Rule::Segments, first_segments(rule, records))
}

// The area of all subareas.
pub fn all_area(subareas: &[u64]) -> u64
    requires { RecordsOk subareas.now × AllPatches subareas.now }
    ensures { result ≡ all_area subareas.now }
{
    let mut sum = 0;
    for own in subarea::records(subareas) {
        sum += subarea::ground(own).area;
    }
    sum
}

// Refusal 8 of an area.
pub fn area_check(area: u64) -> Result<(), Refusal>
    ensures { result ≡ unless Area (leb area most_area) }
{
    Refusal::charge(Rule::Area, area <= limits::MOST_AREA, 0)
}

// Refusals 9 to 11. One pass, so that each Tc is worked out once.
fn timing_checks(setup: Setup, subareas: &[u64]) -> Result<(), Refusal>
    requires { (setup.step ≤ most_step) × (RecordsOk subareas.now × AllSegments subareas.now) }
    ensures { result ≡ first_refusal (map (over_list subareas.now) (timing_tests setup)) }
{
    let mut slow = Ok(());
    let mut coarse = Ok(());
    let mut long = Ok(());
    for (i, own) in subarea::records(subareas).iter().enumerate() {
        let place = i as u64 + 1;
        let time = subarea::time(own);
        slow = slow.and(record::concentration_check(time, place));
        coarse = coarse.and(record::peak_check(setup, time, place));
        long = long.and(record::weights_check(setup, time, place));
    }
    slow?;
    coarse?;
    long
}

// Refusals 6 to 11.
pub fn list_checks(setup: Setup, subareas: &[u64]) -> Result<(), Refusal>
    requires { (setup.step ≤ most_step) × RecordsOk subareas.now }
    ensures { result ≡ first_refusal (list_lines setup subareas.now) }
{
    limit_checks(setup.rule, subareas)?;
    area_check(all_area(subareas))?;
    timing_checks(setup, subareas)
}
