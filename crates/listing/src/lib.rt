// The subareas' times to peak and sums of weights, listed once a study, and the inflow rows made of them: all in lent lists, or
// block by block to look for refusal 14.
// Units: rain in thousandths of an inch, inflow volumes in thousandths of a cubic foot.
#![tactic(auto)]

pub mod over;

ghost use Rattle.std.specs.Prelude.{◌≡◌, ◌+◌, ◌≤◌, ◌<◌, true, length, get_or};
ghost use Rattle.laws.specs.Limits.{most_rows, most_subareas};
ghost use Rattle.laws.specs.Listed.{rows_from};
ghost use Rattle.hydrograph.specs.Needs.{RainOk};
ghost use Rattle.sums.specs.Needs.{block_rows};
ghost use Rattle.subarea.specs.Records.{width, records_in, patches_pass};
ghost use Rattle.checks.specs.Needs.{ListOk};
ghost use Rattle.inflow.specs.Inflow.{inflow_at, inflow_rows};
ghost use Rattle.inflow.specs.Needs.{numbers_with};
ghost use Rattle.listing.specs.Needs.{peak_at, total_at, written_over, Listed, most_of};

use laws::limits;
use subarea::Setup;
use sums::Numbers;

// Of each subarea's unit hydrograph, the time to peak and the sum of the weights, the first subarea's at place 0.
#[derive(Drop)]
pub struct Shapes {
    pub peaks: [u32; limits::MOST_SUBAREAS],
    pub totals: [u32; limits::MOST_SUBAREAS],
}

// Lists them over whatever was there.
pub fn list_peaks(setup: Setup, subareas: &[u64], shapes: &mut Shapes)
    requires { ListOk setup subareas.now × ((length shapes.old.peaks ≡ most_subareas) × (length shapes.old.totals ≡ most_subareas)) }
    ensures peaks_after { shapes.new.peaks ≡ written_over (peak_at setup subareas.now) (records_in subareas.now) shapes.old.peaks }
    ensures totals_after { shapes.new.totals ≡ written_over (total_at setup subareas.now) (records_in subareas.now) shapes.old.totals }
{
    for (i, own) in subarea::records(subareas).iter().enumerate() {
        let peak = subarea::peak(setup, own);
        shapes.peaks[i] = peak as u32;
        shapes.totals[i] = hydrograph::total_weight(peak, setup.step) as u32;
    }
}

// Subarea i's numbers, as they are listed.
fn listed_numbers(own: &[u64], shapes: &Shapes, i: usize) -> Numbers
    requires { (length own.now ≡ width) × ((patches_pass own.now ≡ true) × (i < most_subareas)) }
    ensures { result ≡ numbers_with own.now (get_or shapes.now.peaks i 0) (get_or shapes.now.totals i 0) }
{
    inflow::numbers_with(own, u64::from(shapes.peaks[i]), u64::from(shapes.totals[i]))
}

// Writes the inflow of a block of rows, those after row `from`.
fn fill_block(
    setup: Setup,
    rain: &[u64],
    subareas: &[u64],
    shapes: &Shapes,
    from: usize,
    rows: &mut [u64],
)
    requires list_ok { ListOk setup subareas.now × (RainOk rain.now × Listed setup subareas.now shapes.now) }
    requires in_bounds { (1 ≤ length rows.old) × ((length rows.old ≤ block_rows) × (from + length rows.old ≤ most_rows)) }
    ensures { rows.new ≡ rows_from (inflow_at setup rain.now subareas.now) (from + 1) (length rows.old) }
{
    laws::clear(rows);
    for (i, own) in subarea::records(subareas).iter().enumerate() {
        let numbers = listed_numbers(own, shapes, i);
        parts::add_block(numbers, setup.step, rain, from, rows);
    }
}

// Writes all inflow rows, working in the two other lists, of which nothing is needed any more.
pub fn fill_rows(
    setup: Setup,
    rain: &[u64],
    subareas: &[u64],
    shapes: &Shapes,
    inflow: &mut [u64],
    outflow: &mut [u64],
    storage: &mut [u64],
)
    requires list_ok { ListOk setup subareas.now × (RainOk rain.now × Listed setup subareas.now shapes.now) }
    requires rain_len_bound { (length rain.now ≤ most_rows + 1) × ((length inflow.old ≤ most_rows) × ((length outflow.old ≡ length inflow.old) × (length storage.old ≡ length inflow.old))) }
    ensures inflow_after { inflow.new ≡ inflow_rows setup rain.now subareas.now (length inflow.old) }
    ensures outflow_len_unchanged { (length outflow.new ≡ length outflow.old) × (length storage.new ≡ length storage.old) }
{
    laws::clear(inflow);
    for (i, own) in subarea::records(subareas).iter().enumerate() {
        let numbers = listed_numbers(own, shapes, i);
        parts::add_all(numbers, setup.step, rain, inflow, outflow, storage);
    }
}

// All that runs off the subareas: no more ever comes.
fn most_inflow(setup: Setup, rain: &[u64], subareas: &[u64]) -> u64
    requires { ListOk setup subareas.now × RainOk rain.now }
    ensures { result ≡ most_of rain.now subareas.now }
{
    let mut all = 0;
    for own in subarea::records(subareas) {
        let ground = subarea::ground(own);
        all += inflow::most_volume(ground.tenths, ground.area, rain);
    }
    all
}
