// A row's mark and point for a chart, as doubles. Each is a whole number below 2^53, so nothing is rounded.
// Units: step in seconds, half is half of it; outflow in thousandths of a cfs, storage in thousandths of a cubic foot, stage in
// thousandths of a ft; rows count from 1.
#![tactic(auto)]

ghost use Rattle.std.specs.Prelude.{◌≡◌, ◌+◌, ◌≤◌, ◌<◌, eqb, length};
ghost use Rattle.laws.specs.Within.{within};
ghost use Rattle.rows.specs.Figures.{at, peak_row};
ghost use Rattle.rows.specs.Needs.{RowOk};
ghost use Rattle.checks.specs.Site.{found};
ghost use Rattle.refusals.specs.declared.Rule.TheVariants.{Row};
ghost use Rattle.refusals.specs.Refusals.{unless, first_refusal};
ghost use Rattle.marks.specs.ChartMarks.{double_of, mark_at, point_at, marked_of, mark_lines, mark_refusal, mark_answer, mark_kind, mark_values, mark_refusal_in, mark_kind_in, mark_values_in};
ghost use Rattle.marks.specs.Needs.{most_exact, first_at_least, PointOk, MarkOk};

use pond::Pond;
use refusals::{Refusal, Rule};

// Where a row stands on a chart: its number, the seconds from the start, its outflow.
#[derive(Clone, Copy, Debug, PartialEq)]
pub struct Point {
    pub row: f64,
    pub seconds: f64,
    pub outflow: f64,
}

// What stands there: nothing, an outflow, or the peak with its outflow and stage.
#[derive(Clone, Copy, Debug, PartialEq)]
pub enum Mark {
    Nothing,
    Outflow(f64),
    Peak { outflow: f64, stage: f64 },
}

// A row's mark and its point.
#[derive(Clone, Copy, Debug, PartialEq)]
pub struct Marked {
    pub mark: Mark,
    pub point: Point,
}

// The whole number as a double.
#[tactic(auto, using(crate::proofs::Doubles::exact))]
fn double(n: u64) -> f64
    requires { n ≤ most_exact }
    ensures { result ≡ double_of n }
{
    n as f64
}

// The first row, from 0, whose outflow is at least flow: no row after it is looked at.
fn first_at_least(outflow: &[u64], flow: u64) -> Option<usize>
    ensures { result ≡ first_at_least outflow.now flow }
{
    outflow.iter().position(|&own| flow <= own)
}

// Row i, from 0, is the peak row: no row before it is as high, and none after it is higher.
fn is_peak(outflow: &[u64], i: usize) -> bool
    requires { (i < length outflow.now) × (at outflow.now i ≤ most_exact) }
    ensures { result ≡ eqb (i + 1) (peak_row outflow.now (length outflow.now)) }
{
    let flow = outflow[i];
    let higher = flow + 1;
    let next = i + 1;
    first_at_least(&outflow[..i], flow).is_none()
        && first_at_least(&outflow[next..], higher).is_none()
}

// The first rule that fits: nothing without outflow, also in the peak row; the peak; an outflow. The row is i, from 0.
#[tactic(auto, using(crate::proofs::Dry::mark_dry, crate::proofs::Ready::flow_exact, pond::proofs::Sums::last_most, pond::proofs::Sums::stage_most))]
fn mark_of(pond: &Pond<'_>, outflow: &[u64], i: usize, storage: u64) -> Mark
    requires { RowOk pond.now.half pond.now.table.numbers.now (at outflow.now i) storage × (i < length outflow.now) }
    ensures { result ≡ mark_at pond.now.half pond.now.table.numbers.now (peak_row outflow.now (length outflow.now)) (i + 1) (at outflow.now i) storage }
{
    let own = outflow[i];
    if own == 0 {
        return Mark::Nothing;
    }
    let flow = double(own);
    if is_peak(outflow, i) {
        let stage = pond.stage_at(storage + pond.half * own);
        let stage = double(stage);
        return Mark::Peak {
            outflow: flow,
            stage,
        };
    }
    Mark::Outflow(flow)
}

#[tactic(auto, unfolding(crate::specs::ChartMarks::point_at))]
fn point_of(step: u64, first: u64, row: u64, outflow: u64) -> Point
    requires { PointOk step first row outflow }
    ensures { result ≡ point_at step first row outflow }
{
    Point {
        row: double(first + row - 1),
        seconds: double(row * step),
        outflow: double(outflow),
    }
}

// The mark and the point of a row that nothing refuses.
#[tactic(auto, using(crate::proofs::Ready::point_ok))]
fn mark_and_point(
    step: u64,
    first: u64,
    pond: &[u64],
    outflow: &[u64],
    storage: &[u64],
    row: u64,
) -> Marked
    requires { MarkOk step first pond.now outflow.now storage.now row }
    ensures { result ≡ marked_of step first pond.now outflow.now storage.now row }
{
    let i = (row - 1) as usize;
    let pond = Pond::new(pond, step / 2);
    let mark = mark_of(&pond, outflow, i, storage[i]);
    let point = point_of(step, first, row, outflow[i]);
    Marked { mark, point }
}

// 18
fn row_check(row: u64, m: usize) -> Result<(), Refusal>
    ensures { result ≡ unless Row (within 1 row m) }
{
    Refusal::charge(Rule::Row, (1..=m as u64).contains(&row), 0)
}

// Refusals 1, 2 and 4.
fn mark_checks(
    step: u64,
    first: u64,
    inflow: &[u64],
    outflow: &[u64],
    storage: &[u64],
) -> Result<(), Refusal>
    ensures { result ≡ first_refusal (mark_lines step first (found inflow.now outflow.now storage.now)) }
{
    checks::frame_checks(step, inflow, outflow, storage)?;
    checks::last_check(first, inflow.len())
}

// The first refusal, in the order 1, 2, 4, 12, 13, 18, 17.
#[tactic(auto, unfolding(crate::specs::ChartMarks::mark_refusal))]
fn mark_refusal(
    step: u64,
    first: u64,
    pond: &[u64],
    inflow: &[u64],
    outflow: &[u64],
    storage: &[u64],
    row: u64,
) -> Result<(), Refusal>
    ensures { result ≡ mark_refusal step first pond.now (found inflow.now outflow.now storage.now) row }
{
    mark_checks(step, first, inflow, outflow, storage)?;
    let pond = checks::pond_check(step / 2, pond)?;
    row_check(row, outflow.len())?;
    // All rows are held against the pond, whatever row is asked: the peak is chosen among all.
    checks::forged_check(&pond, outflow, storage)
}

// The mark of a row: refused by rule and place, or its mark and its point. Of the inflow list only the length is read.
#[tactic(auto, unfolding(crate::specs::ChartMarks::mark_answer, crate::specs::ChartMarks::mark_kind, crate::specs::ChartMarks::mark_values))]
pub fn mark_row(
    step: u64,
    first: u64,
    pond: &[u64],
    inflow: &[u64],
    outflow: &[u64],
    storage: &[u64],
    row: u64,
) -> Result<Marked, Refusal>
    ensures value { result ≡ mark_answer step first pond.now (found inflow.now outflow.now storage.now) row }
    ensures result_value { mark_refusal_in result ≡ mark_refusal step first pond.now (found inflow.now outflow.now storage.now) row }
    ensures result_value_2 { mark_kind_in result ≡ mark_kind step first pond.now (found inflow.now outflow.now storage.now) row }
    ensures result_value_3 { mark_values_in result ≡ mark_values step first pond.now (found inflow.now outflow.now storage.now) row }
{
    mark_refusal(step, first, pond, inflow, outflow, storage, row)?;
    Ok(mark_and_point(step, first, pond, outflow, storage, row))
}
