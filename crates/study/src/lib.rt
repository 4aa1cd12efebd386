// A study on flat numbers: every input ends with an answer.
// Units: rain in thousandths of an inch, inflow volumes and storage in thousandths of a cubic foot, outflow in thousandths
// of a cfs; half is half the step, in seconds.
#![tactic(auto)]

ghost use Rattle.std.specs.Prelude.{◌≡◌, None, length};
ghost use Rattle.curve.specs.declared.Classes.{Classes};
ghost use Rattle.pond.specs.PondRows.{empty};
ghost use Rattle.rows.specs.Routing.{over_row};
ghost use Rattle.subarea.specs.Records.{half_of};
ghost use Rattle.subarea.specs.Needs.{RecordsOk, AllPatches};
ghost use Rattle.checks.specs.Site.{site_now, rows_now, site, found, left};
ghost use Rattle.checks.specs.Needs.{SiteOk};
ghost use Rattle.inflow.specs.Inflow.{inflow_rows, inflow_of};
ghost use Rattle.listing.specs.Needs.{Listed};
ghost use Rattle.study.specs.Study.{classes_all, figures_with, routed, study_figures, study_refusal, study_answer, study_rows, study_values, study_refusal_in, study_values_in};
ghost use Rattle.study.specs.Needs.{decided_answer, decided_rows};

use laws::limits;
use listing::Shapes;
use pond::{Pond, State};
use refusals::{Refusal, Rule};
use rows::{Level, RowFigures};
use subarea::Setup;

// The figures of a study: total inflow, total released and the last storage in thousandths of a cubic foot, peak outflow in
// thousandths of a cfs with the first row that has it (from 1), greatest stage in thousandths of a ft, and the area in each
// class in hundredths of an acre.
#[derive(Clone, Copy, Debug, Default, PartialEq, Eq)]
pub struct Figures {
    pub inflow: u64,
    pub released: u64,
    pub storage: u64,
    pub peak: u64,
    pub row: u64,
    pub stage: u64,
    pub surfaces: u64,
    pub districts: u64,
    pub lots: u64,
    pub rural: u64,
}

// The area of each class over all subareas.
pub fn all_classes(subareas: &[u64]) -> curve::Classes
    requires { RecordsOk subareas.now × AllPatches subareas.now }
    ensures { result ≡ classes_all subareas.now }
{
    let mut sum = curve::Classes::default();
    for own in subarea::records(subareas) {
        sum = sum + subarea::classes(own);
    }
    sum
}

// The figures of rows, with class areas.
pub fn figures_with(classes: curve::Classes, own: RowFigures) -> Figures
    ensures { result ≡ figures_with classes own }
{
    Figures {
        inflow: own.inflow,
        released: own.kept.released,
        storage: own.storage,
        peak: own.kept.peak,
        row: own.kept.row,
        stage: own.kept.stage,
        surfaces: classes.surfaces,
        districts: classes.districts,
        lots: classes.lots,
        rural: classes.rural,
    }
}

// Writes rows that all pass, and gives their figures. No refusal can follow, so that the outflow and storage lists are worked
// in until their rows are written.
fn finish(
    setup: Setup,
    rain: &[u64],
    subareas: &[u64],
    pond: &Pond<'_>,
    shapes: &Shapes,
    inflow: &mut [u64],
    outflow: &mut [u64],
    storage: &mut [u64],
) -> Figures
    requires site_ok { SiteOk (site_now setup rain.now subareas.now pond.now.table.numbers.now) (rows_now inflow.old outflow.old storage.old) × Listed setup subareas.now shapes.now }
    requires half { pond.now.half ≡ half_of setup }
    requires inflow_value { over_row (half_of setup) pond.now.table.numbers.now empty (inflow_rows setup rain.now subareas.now (length inflow.old)) ≡ None }
    ensures value { result ≡ study_figures (site setup rain.now subareas.now pond.now.table.numbers.now) (found inflow.old outflow.old storage.old) }
    ensures storage_value { left inflow.new outflow.new storage.new ≡ routed (half_of setup) pond.now.table.numbers.now (inflow_of (site setup rain.now subareas.now pond.now.table.numbers.now) (found inflow.old outflow.old storage.old)) }
{
    listing::fill_rows(setup, rain, subareas, shapes, inflow, outflow, storage);
    let own = rows::write_from(pond, inflow, outflow, storage, 0);
    figures_with(all_classes(subareas), own)
}

// What checks 1 to 13 leave to do: refusal 14, or the rows and their figures. Nothing is written before every row is known to
// pass.
fn work(
    setup: Setup,
    rain: &[u64],
    subareas: &[u64],
    pond: &[u64],
    inflow: &mut [u64],
    outflow: &mut [u64],
    storage: &mut [u64],
) -> Result<Figures, Refusal>
    requires { SiteOk (site_now setup rain.now subareas.now pond.now) (rows_now inflow.old outflow.old storage.old) }
    ensures value { result ≡ decided_answer (site setup rain.now subareas.now pond.now) (found inflow.old outflow.old storage.old) }
    ensures storage_value { left inflow.new outflow.new storage.new ≡ decided_rows (site setup rain.now subareas.now pond.now) (found inflow.old outflow.old storage.old) }
{
    let mut shapes = Shapes {
        peaks: [0; limits::MOST_SUBAREAS],
        totals: [0; limits::MOST_SUBAREAS],
    };
    listing::list_peaks(setup, subareas, &mut shapes);
    let level = Level::new(&Pond::new(pond, setup.step / 2), State::default());
    let over = listing::over::over_row(setup, rain, subareas, &level, &shapes, inflow.len());
    refusals::refused_at(Rule::Over, over)?;
    Ok(finish(
        setup,
        rain,
        subareas,
        &level.pond,
        &shapes,
        inflow,
        outflow,
        storage,
    ))
}

// A study: refused by rule and place with every list as it was, or done with the rows written.
pub fn run(
    setup: Setup,
    rain: &[u64],
    subareas: &[u64],
    pond: &[u64],
    inflow: &mut [u64],
    outflow: &mut [u64],
    storage: &mut [u64],
) -> Result<Figures, Refusal>
    ensures value { result ≡ study_answer (site setup rain.now subareas.now pond.now) (found inflow.old outflow.old storage.old) }
    ensures storage_value { left inflow.new outflow.new storage.new ≡ study_rows (site setup rain.now subareas.now pond.now) (found inflow.old outflow.old storage.old) }
    ensures result_value { study_refusal_in result ≡ study_refusal (site setup rain.now subareas.now pond.now) (found inflow.old outflow.old storage.old) }
    ensures result_value_2 { study_values_in result ≡ study_values (site setup rain.now subareas.now pond.now) (found inflow.old outflow.old storage.old) }
{
    checks::study_checks(setup, rain, subareas, pond, inflow, outflow, storage)?;
    work(setup, rain, subareas, pond, inflow, outflow, storage)
}
