// The refusals 1 to 13, with 20 after 2 and 19 after 3, in their order, one function a number, in groups that a study, an edit
// and a mark compose. Rain is in thousandths of an inch; half is half the step, in seconds.
#![tactic(auto)]

pub mod list;
pub mod record;

ghost use Rattle.std.specs.Prelude.{◌≡◌, ◌+◌, ◌<◌, IfOk, length};
ghost use Rattle.laws.specs.Within.{within};
ghost use Rattle.travel.specs.TravelTime.{rule_good};
ghost use Rattle.pond.specs.PondRows.{first_short, table_place};
ghost use Rattle.pond.specs.Needs.{HalfOk};
ghost use Rattle.rows.specs.Figures.{first_forged};
ghost use Rattle.refusals.specs.declared.Rule.TheVariants.{Lengths, Step, Rain, LastRow, Subareas, PondTable, PondHeld, Forged, Rise, SheetRule};
ghost use Rattle.refusals.specs.Refusals.{unless, first_of, first_at, first_refusal};
ghost use Rattle.checks.specs.Needs.{line_of};
ghost use Rattle.checks.specs.Site.{site, basin, found};
ghost use Rattle.checks.specs.Order.{lengths_good, step_good, entries_good, entry_good, first_entry, rise_good, first_leap, last_good, records_good, frame_lines, rain_lines, run_lines, pond_lines, inflow_lines, check_lines};

use laws::limits;
use pond::{Pond, Table};
use refusals::{Refusal, Rule};
use subarea::Setup;

// 1
#[tactic(auto, unfolding(crate::specs::Order::lengths_good))]
fn lengths_check(inflow: &[u64], outflow: &[u64], storage: &[u64]) -> Result<(), Refusal>
    ensures { result ≡ unless Lengths (lengths_good (found inflow.now outflow.now storage.now)) }
{
    let m = inflow.len();
    let alike = outflow.len() == m && storage.len() == m;
    Refusal::charge(
        Rule::Lengths,
        alike && (1..=limits::MOST_ROWS).contains(&m),
        0,
    )
}

// 2
#[tactic(auto, unfolding(crate::specs::Order::step_good))]
fn step_check(step: u64) -> Result<(), Refusal>
    ensures { result ≡ unless Step (step_good step) }
{
    let within = (limits::LEAST_STEP..=limits::MOST_STEP).contains(&step);
    Refusal::charge(Rule::Step, within && step % 2 == 0, 0)
}

// 20
fn rule_check(rule: u64) -> Result<(), Refusal>
    ensures { result ≡ unless SheetRule (rule_good rule) }
{
    Refusal::charge(Rule::SheetRule, travel::rule_good(rule), 0)
}

// n + 1 entries for m rows, 1 <= n <= m: tested by a difference, so that no sum wraps.
fn entries_good(entries: usize, m: usize) -> bool
    ensures { result ≡ within 2 entries (m + 1) }
{
    if entries < 2 {
        return false;
    }
    entries - 1 <= m
}

// 3, the count
#[tactic(auto, unfolding(crate::specs::Order::entries_good))]
fn entries_check(rain: &[u64], m: usize) -> Result<(), Refusal>
    ensures { result ≡ unless Rain (entries_good rain.now m) }
{
    Refusal::charge(Rule::Rain, entries_good(rain.len(), m), 0)
}

// Is rain entry i within its limits and not below the one before?
fn entry_good(rain: &[u64], i: usize) -> bool
    requires { i < length rain.now }
    ensures { result ≡ entry_good rain.now i }
{
    let own = rain[i];
    if i == 0 {
        return own <= limits::MOST_RAIN && own == 0;
    }
    own <= limits::MOST_RAIN && rain[i - 1] <= own
}

// The first bad entry.
fn first_entry(rain: &[u64]) -> Option<usize>
    ensures { result ≡ first_entry rain.now }
{
    (0..rain.len()).position(|i| !entry_good(rain, i))
}

// 3, the first bad entry
fn entry_check(rain: &[u64]) -> Result<(), Refusal>
    ensures { result ≡ first_at Rain (first_entry rain.now) }
{
    refusals::refused_at_entry(Rule::Rain, first_entry(rain))
}

// Is rain entry i at most MOST_RISE above the one before? Entry 0, which has none before it, is held to itself. Tested by a
// difference, so that no sum wraps: 19 is asked of rain that 3 may refuse.
fn rise_good(rain: &[u64], i: usize) -> bool
    requires { i < length rain.now }
    ensures { result ≡ rise_good rain.now i }
{
    let before = rain[i.saturating_sub(1)];
    rain[i].saturating_sub(before) <= limits::MOST_RISE
}

// The later entry of the first leap.
fn first_leap(rain: &[u64]) -> Option<usize>
    ensures { result ≡ first_leap rain.now }
{
    (0..rain.len()).position(|i| !rise_good(rain, i))
}

// 19
fn rise_check(rain: &[u64]) -> Result<(), Refusal>
    ensures { result ≡ first_at Rise (first_leap rain.now) }
{
    refusals::refused_at_entry(Rule::Rise, first_leap(rain))
}

// Is first + m - 1 a row number? Tested by a difference: the sum may pass 64 bits.
fn last_good(first: u64, m: usize) -> bool
    ensures { result ≡ last_good first m }
{
    if limits::LAST_NUMBER + 1 < first {
        return false;
    }
    m as u64 <= limits::LAST_NUMBER + 1 - first
}

// 4
pub fn last_check(first: u64, m: usize) -> Result<(), Refusal>
    ensures { result ≡ unless LastRow (last_good first m) }
{
    Refusal::charge(Rule::LastRow, last_good(first, m), 0)
}

// 5
#[tactic(auto, unfolding(crate::specs::Order::records_good))]
fn records_check(subareas: &[u64]) -> Result<(), Refusal>
    ensures { result ≡ unless Subareas (records_good subareas.now) }
{
    let n = subarea::records(subareas).len();
    let whole = subareas.len() % subarea::WIDTH == 0;
    Refusal::charge(
        Rule::Subareas,
        whole && (1..=limits::MOST_SUBAREAS).contains(&n),
        0,
    )
}

// Refusals 1 and 2.
pub fn frame_checks(
    step: u64,
    inflow: &[u64],
    outflow: &[u64],
    storage: &[u64],
) -> Result<(), Refusal>
    ensures { result ≡ first_refusal (frame_lines step (found inflow.now outflow.now storage.now)) }
{
    lengths_check(inflow, outflow, storage)?;
    step_check(step)
}

// Refusals 3 and 19.
fn rain_checks(rain: &[u64], m: usize) -> Result<(), Refusal>
    ensures { result ≡ first_refusal (rain_lines rain.now m) }
{
    entries_check(rain, m)?;
    entry_check(rain)?;
    rise_check(rain)
}

// Refusals 1 to 5, with 20 after 2 and 19 after 3.
pub fn run_checks(
    setup: Setup,
    rain: &[u64],
    subareas: &[u64],
    inflow: &[u64],
    outflow: &[u64],
    storage: &[u64],
) -> Result<(), Refusal>
    ensures { result ≡ first_refusal (run_lines (basin setup rain.now subareas.now) (found inflow.now outflow.now storage.now)) }
{
    frame_checks(setup.step, inflow, outflow, storage)?;
    rule_check(setup.rule)?;
    rain_checks(rain, inflow.len())?;
    last_check(setup.first, inflow.len())?;
    records_check(subareas)
}

// 12: place 0 for the count, else the first bad row.
fn table_check<'a>(pond: &'a [u64]) -> Result<Table<'a>, Refusal>
    ensures line { line_of result ≡ first_at PondTable (table_place pond.now) }
    ensures table { IfOk result (λ t. t.numbers.now ≡ pond.now) }
{
    match Table::check(pond) {
        Ok(table) => Ok(table),
        Err(at) => Err(Refusal {
            rule: Rule::PondTable,
            place: at as u64,
        }),
    }
}

// 13
fn held_check<'a>(half: u64, table: &Table<'a>) -> Result<Pond<'a>, Refusal>
    requires { HalfOk half }
    ensures line { line_of result ≡ first_of PondHeld (first_short half table.now.numbers.now) }
    ensures pond { IfOk result (λ v. (v.table ≡ table.now) × (v.half ≡ half)) }
{
    match Pond::check(table, half) {
        Ok(pond) => Ok(pond),
        Err(at) => Err(Refusal {
            rule: Rule::PondHeld,
            place: at as u64,
        }),
    }
}

// Refusals 12 and 13, and the pond that they leave.
pub fn pond_check<'a>(half: u64, pond: &'a [u64]) -> Result<Pond<'a>, Refusal>
    requires { HalfOk half }
    ensures line { line_of result ≡ first_refusal (pond_lines half pond.now) }
    ensures pond { IfOk result (λ v. (v.table.numbers.now ≡ pond.now) × (v.half ≡ half)) }
{
    let table = table_check(pond)?;
    held_check(half, &table)
}

// Refusals 12 and 13.
pub fn pond_checks(half: u64, pond: &[u64]) -> Result<(), Refusal>
    requires { HalfOk half }
    ensures { result ≡ first_refusal (pond_lines half pond.now) }
{
    pond_check(half, pond)?;
    Ok(())
}

// 17. Any numbers may stand in the rows.
pub fn forged_check(pond: &Pond<'_>, outflow: &[u64], storage: &[u64]) -> Result<(), Refusal>
    requires { length storage.now ≡ length outflow.now }
    ensures { result ≡ first_of Forged (first_forged pond.now.half pond.now.table.numbers.now outflow.now storage.now) }
{
    refusals::refused_at(Rule::Forged, rows::first_forged(pond, outflow, storage))
}

// Refusals 1 to 11, with 20 after 2 and 19 after 3: what a study's inflow rows need.
pub fn inflow_checks(
    setup: Setup,
    rain: &[u64],
    subareas: &[u64],
    inflow: &[u64],
    outflow: &[u64],
    storage: &[u64],
) -> Result<(), Refusal>
    ensures { result ≡ first_refusal (inflow_lines (basin setup rain.now subareas.now) (found inflow.now outflow.now storage.now)) }
{
    run_checks(setup, rain, subareas, inflow, outflow, storage)?;
    list::list_checks(setup, subareas)
}

// Refusals 1 to 13, with 20 after 2 and 19 after 3.
pub fn study_checks(
    setup: Setup,
    rain: &[u64],
    subareas: &[u64],
    pond: &[u64],
    inflow: &[u64],
    outflow: &[u64],
    storage: &[u64],
) -> Result<(), Refusal>
    ensures { result ≡ first_refusal (check_lines (site setup rain.now subareas.now pond.now) (found inflow.now outflow.now storage.now)) }
{
    inflow_checks(setup, rain, subareas, inflow, outflow, storage)?;
    pond_checks(setup.step / 2, pond)
}
