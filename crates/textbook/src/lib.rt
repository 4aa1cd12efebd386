// The inflow rows as the textbook has them, a second engine beside `inflow`: the runoff added in each rain step times each
// weight, laid into the rows, and the sums through a row rounded. It calls nothing of the first engine but runoff depth, a
// weight and the volume of a depth.
// Units: time to peak and step in seconds, area in hundredths of an acre, rain in thousandths of an inch, runoff in millionths
// of an inch, what is laid in millionths of an inch times a weight, inflow volumes in thousandths of a cubic foot.
#![tactic(auto)]

ghost use Rattle.std.specs.Prelude.{◌≡◌, ℕ, ◌+◌, ◌-◌, ◌*◌, ◌≤◌, eqb, length};
ghost use Rattle.laws.specs.Pick.{pick};
ghost use Rattle.laws.specs.Filled.{Filled};
ghost use Rattle.laws.specs.Listed.{rows_from, plus};
ghost use Rattle.laws.specs.Limits.{most_rows, most_area, most_weights};
ghost use Rattle.curve.specs.Needs.{CurveOk};
ghost use Rattle.hydrograph.specs.InflowRows.{total_weight};
ghost use Rattle.hydrograph.specs.Needs.{most_depth, TimingOk, RainOk, RoomOk};
ghost use Rattle.subarea.specs.Records.{area_of};
ghost use Rattle.checks.specs.Site.{basin, found};
ghost use Rattle.checks.specs.Needs.{RecordOk, ListOk};
ghost use Rattle.textbook.specs.Textbook.{rain_steps, added, part_laid_of, textbook_rows, textbook_refusal, textbook_after};
ghost use Rattle.textbook.specs.Needs.{most_weight, laid_by, laid_on, AddedOk, LaidOk, SumsOk, LayingOk, part_of_laid};

use laws::limits;
use refusals::Refusal;
use subarea::Setup;

// Puts the runoff added in each rain step into a list, that of step 1 at place 0, on a curve number in tenths.
fn fill_added(tenths: u64, rain: &[u64], list: &mut [u64; limits::MOST_ROWS])
    requires { CurveOk tenths × (RainOk rain.now × ((length rain.now ≤ most_rows + 1) × (length list.old ≡ most_rows))) }
    ensures { Filled (λ i. added tenths rain.now (i + 1)) (rain_steps rain.now) list.new × (length list.new ≡ most_rows) }
{
    let mut before = 0;
    // By place: after `iter_mut` with a second list nothing is known of what was written.
    for t in 1..rain.len() {
        let through = runoff::depth(tenths, rain[t]);
        list[t - 1] = through - before;
        before = through;
    }
}

// Lays a piece into a row, which counts from 1; past the last row there is none.
fn lay_piece(piece: u64, row: usize, rows: &mut [u64])
    requires { (1 ≤ row) × ((piece ≤ most_depth * most_weight) × LaidOk rows.old most_weights) }
    ensures { rows.new ≡ plus (λ (k : ℕ). pick (eqb row k) piece 0) 1 rows.old }
{
    if row <= rows.len() {
        let at = row - 1;
        rows[at] += piece;
    }
}

// Lays the pieces of weight j, one for each rain step: step t + 1 falls into row t + j.
fn lay_weight(weight: u64, j: usize, more: &[u64], rows: &mut [u64])
    requires { (weight ≤ most_weight) × ((1 ≤ j) × ((j ≤ most_weights) × (AddedOk more.now × LaidOk rows.old (j - 1)))) }
    ensures { rows.new ≡ plus (laid_by more.now weight j) 1 rows.old }
{
    for t in 0..more.len() {
        let piece = more[t] * weight;
        lay_piece(piece, t + j, rows);
    }
}

// Lays all pieces into rows of zeros, weight by weight, and gives the sum of weights.
fn lay(peak: u64, step: u64, more: &[u64], rows: &mut [u64]) -> u64
    requires { TimingOk step peak × (AddedOk more.now × LaidOk rows.old 0) }
    ensures { (result ≡ total_weight peak step) × (rows.new ≡ laid_on more.now peak step rows.old) }
{
    let n = 5 * peak / step;
    let mut total = 0;
    for j in 0..n {
        let weight = hydrograph::weight(peak, step, j + 1);
        lay_weight(weight, j as usize + 1, more, rows);
        total += weight;
    }
    total
}

// Adds the parts that come of what is laid: only the sums through a row are rounded.
fn add_parts(area: u64, total: u64, laid: &[u64], rows: &mut [u64])
    requires { (area ≤ most_area) × (SumsOk total laid.now × ((length laid.now ≡ length rows.old) × RoomOk rows.old)) }
    ensures { rows.new ≡ plus (part_of_laid area total laid.now) 1 rows.old }
{
    let mut sum = 0;
    let mut before = 0;
    // By place: after `iter_mut` with a second list nothing is known of what was written.
    for i in 0..rows.len() {
        sum += laid[i];
        let through = hydrograph::volume(area, sum / total);
        rows[i] += through - before;
        before = through;
    }
}

// Lays all pieces into rows of zeros, and adds the parts that come of them.
fn lay_and_add(area: u64, peak: u64, step: u64, more: &[u64], laid: &mut [u64], rows: &mut [u64])
    requires { LayingOk area peak step more.now laid.old rows.old }
    ensures { rows.new ≡ plus (part_of_laid area (total_weight peak step) (laid_on more.now peak step laid.old)) 1 rows.old }
{
    let total = lay(peak, step, more, laid);
    add_parts(area, total, laid, rows);
}

// Adds a record's part to each row.
fn add_record(setup: Setup, rain: &[u64], own: &[u64], rows: &mut [u64])
    requires { RecordOk setup own.now × ((area_of own.now ≤ most_area) × (RainOk rain.now × ((length rain.now ≤ most_rows + 1) × RoomOk rows.old))) }
    ensures { rows.new ≡ plus (part_laid_of setup rain.now own.now) 1 rows.old }
{
    let ground = subarea::ground(own);
    let peak = subarea::peak(setup, own);
    let mut more = [0u64; limits::MOST_ROWS];
    let mut laid = [0u64; limits::MOST_ROWS];
    fill_added(ground.tenths, rain, &mut more);
    let n = rain.len() - 1;
    let m = rows.len();
    lay_and_add(
        ground.area,
        peak,
        setup.step,
        &more[..n],
        &mut laid[..m],
        rows,
    );
}

// Turns a list of zeros into the inflow rows.
fn add_records(setup: Setup, rain: &[u64], subareas: &[u64], rows: &mut [u64])
    requires { ListOk setup subareas.now × (RainOk rain.now × ((length rain.now ≤ most_rows + 1) × ((length rows.old ≤ most_rows) × (rows.old ≡ rows_from (λ (k : ℕ). 0) 1 (length rows.old))))) }
    ensures { rows.new ≡ textbook_rows setup rain.now subareas.now (length rows.old) }
{
    for own in subarea::records(subareas) {
        add_record(setup, rain, own, rows);
    }
}

// The inflow rows: refusals 1 to 11, with 20 after 2 and 19 after 3, and no pond. Of the outflow and storage lists only the
// lengths are read.
#[tactic(auto, unfolding(crate::specs::Textbook::textbook_refusal))]
pub fn run(
    setup: Setup,
    rain: &[u64],
    subareas: &[u64],
    rows: &mut [u64],
    outflow: &[u64],
    storage: &[u64],
) -> Result<(), Refusal>
    ensures value { result ≡ textbook_refusal (basin setup rain.now subareas.now) (found rows.old outflow.now storage.now) }
    ensures rows_after { rows.new ≡ textbook_after (basin setup rain.now subareas.now) (found rows.old outflow.now storage.now) }
{
    checks::inflow_checks(setup, rain, subareas, rows, outflow, storage)?;
    rows.fill(0);
    add_records(setup, rain, subareas, rows);
    Ok(())
}
