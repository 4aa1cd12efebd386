// The inflow rows of a list of subareas. Rain in thousandths of an inch, inflow volumes in thousandths of a cubic foot.
#![tactic(auto)]

ghost use Rattle.std.specs.Prelude.{◌≡◌, true, ℕ, ◌≤◌, length};
ghost use Rattle.laws.specs.Limits.{most_rows, most_area};
ghost use Rattle.laws.specs.Listed.{plus, rows_from};
ghost use Rattle.curve.specs.Needs.{CurveOk};
ghost use Rattle.hydrograph.specs.Needs.{RainOk, RoomOk};
ghost use Rattle.subarea.specs.Records.{width, area_of, patches_pass};
ghost use Rattle.checks.specs.Site.{basin, found};
ghost use Rattle.checks.specs.Needs.{RecordOk, ListOk};
ghost use Rattle.inflow.specs.Needs.{numbers_with, numbers_of, most_volume};
ghost use Rattle.inflow.specs.Inflow.{part_of, inflow_rows, inflow_refusal, inflow_after};

use refusals::Refusal;
use subarea::Setup;
use sums::Numbers;

// A record's numbers, its time to peak and the sum of its weights being known.
pub fn numbers_with(own: &[u64], peak: u64, total: u64) -> Numbers
    requires { (length own.now ≡ width) × (patches_pass own.now ≡ true) }
    ensures { result ≡ numbers_with own.now peak total }
{
    let ground = subarea::ground(own);
    Numbers {
        tenths: ground.tenths,
        area: ground.area,
        peak,
        total,
    }
}

// A record's numbers.
pub fn numbers(setup: Setup, own: &[u64]) -> Numbers
    requires { RecordOk setup own.now }
    ensures { result ≡ numbers_of setup own.now }
{
    let peak = subarea::peak(setup, own);
    numbers_with(own, peak, hydrograph::total_weight(peak, setup.step))
}

// All that runs off an area by its curve number in tenths: no more is ever released.
pub fn most_volume(tenths: u64, area: u64, rain: &[u64]) -> u64
    requires { CurveOk tenths × ((area ≤ most_area) × RainOk rain.now) }
    ensures { result ≡ most_volume tenths area rain.now }
{
    let last = rain[rain.len() - 1];
    hydrograph::volume(area, runoff::depth(tenths, last))
}

// Adds a record's part to each row.
pub fn add_record(setup: Setup, rain: &[u64], own: &[u64], rows: &mut [u64])
    requires { RecordOk setup own.now × ((area_of own.now ≤ most_area) × (RainOk rain.now × RoomOk rows.old)) }
    ensures { rows.new ≡ plus (part_of setup rain.now own.now) 1 rows.old }
{
    parts::add_parts(numbers(setup, own), setup.step, rain, 0, rows);
}

// Turns a list of zeros into the inflow rows.
fn add_records(setup: Setup, rain: &[u64], subareas: &[u64], rows: &mut [u64])
    requires { ListOk setup subareas.now × (RainOk rain.now × ((length rows.old ≤ most_rows) × (rows.old ≡ rows_from (λ (k : ℕ). 0) 1 (length rows.old)))) }
    ensures { rows.new ≡ inflow_rows setup rain.now subareas.now (length rows.old) }
{
    for own in subarea::records(subareas) {
        add_record(setup, rain, own, rows);
    }
}

// Writes the inflow rows over whatever the list had.
#[tactic(auto, using(laws::proofs::Listed::zeros_all))]
pub fn fill(setup: Setup, rain: &[u64], subareas: &[u64], rows: &mut [u64])
    requires { ListOk setup subareas.now × (RainOk rain.now × (length rows.old ≤ most_rows)) }
    ensures { rows.new ≡ inflow_rows setup rain.now subareas.now (length rows.old) }
{
    rows.fill(0);
    add_records(setup, rain, subareas, rows);
}

// The inflow rows alone: refusals 1 to 11, with 20 after 2 and 19 after 3, and no pond. Of the outflow and storage lists only
// the lengths are read.
#[tactic(auto, unfolding(crate::specs::Inflow::inflow_refusal))]
pub fn run(
    setup: Setup,
    rain: &[u64],
    subareas: &[u64],
    rows: &mut [u64],
    outflow: &[u64],
    storage: &[u64],
) -> Result<(), Refusal>
    ensures value { result ≡ inflow_refusal (basin setup rain.now subareas.now) (found rows.old outflow.now storage.now) }
    ensures rows_after { rows.new ≡ inflow_after (basin setup rain.now subareas.now) (found rows.old outflow.now storage.now) }
{
    checks::inflow_checks(setup, rain, subareas, rows, outflow, storage)?;
    fill(setup, rain, subareas, rows);
    Ok(())
}
