// The rows of a study, and its figures.
ghost use Rattle.std.specs.Prelude.{◌≡◌, Some, IfSome, ◌+◌, ◌-◌, ◌/◌, ◌≤◌, ◌<◌, length};
ghost use Rattle.sheet.specs.Bounds.{AsMany, RowsNumbered};
ghost use Rattle.sheet.specs.Text.{row_text, stage_of, line_of, lines_of};

use laws::limits;
use pond::{Pond, Table};
use reading::{Clock, Hundredths, Study, Thousandths};
use std::{fmt, io};
use study::Figures;
use subarea::Setup;

const LEAST_HALF: u64 = limits::LEAST_STEP / 2;

const MOST_HALF: u64 = limits::MOST_STEP / 2;

// The stage at X = storage + h times outflow. Every row of a study that was not refused passes the
// tests; they are written so that no sum wraps.
fn stage(pond: &Pond<'_>, outflow: u64, storage: u64) -> u64
    ensures { result ≡ stage_of pond.now.half pond.now.table.numbers.now outflow storage }
{
    let last = pond.last_sum();
    if storage > last {
        return 0;
    }
    if outflow > (last - storage) / pond.half {
        return 0;
    }
    pond.stage_at(storage + pond.half * outflow)
}

// The number of row k, which counts from 1. It is below 2 to the power of 53, as the engine's own.
fn row_number(first: u64, k: u64) -> u64
    requires { (1 ≤ k) × RowsNumbered first k }
    ensures { (result ≡ first + k - 1) × (result < 9007199254740992) }
{
    first + (k - 1)
}

// A row's line.
#[derive(Clone, Copy, Debug, PartialEq, Eq)]
struct Row {
    number: u64,
    clock: Clock,
    inflow: Thousandths,
    outflow: Thousandths,
    storage: Thousandths,
    stage: Thousandths,
}

impl fmt::Display for Row {
    ghost output = { λ r. Some (row_text r) };

    fn fmt<W: fmt::Write>(&self, f: &mut fmt::Formatter<W>) -> fmt::Result {
        write!(
            f,
            "{:>16} {:>11} {:>15} {:>13} {:>16} {:>10}",
            self.number, self.clock, self.inflow, self.outflow, self.storage, self.stage
        )
    }
}

// Row k, from 0.
fn row_at(
    setup: Setup,
    pond: &Pond<'_>,
    k: usize,
    inflow: &[u64],
    outflow: &[u64],
    storage: &[u64],
) -> Row
    requires halved { pond.now.half ≡ setup.step / 2 }
    requires as_many { AsMany inflow.now outflow.now storage.now }
    requires rows_numbered { RowsNumbered setup.first (length inflow.now) }
    requires in_range { k < length inflow.now }
    ensures { row_text result ≡ line_of setup pond.now.table.numbers.now inflow.now outflow.now storage.now k }
{
    let stage = stage(pond, outflow[k], storage[k]);
    let row = k as u64 + 1;
    let number = row_number(setup.first, row);
    let seconds = row * setup.step;
    Row {
        number,
        clock: Clock(seconds),
        inflow: Thousandths(inflow[k]),
        outflow: Thousandths(outflow[k]),
        storage: Thousandths(storage[k]),
        stage: Thousandths(stage),
    }
}

// The rows of a study, a line each.
#[derive(Clone, Copy)]
struct Rows<'a> {
    setup: Setup,
    pond: Pond<'a>,
    inflow: &'a [u64],
    outflow: &'a [u64],
    storage: &'a [u64],
    ghost halved: { pond.half ≡ setup.step / 2 },
    ghost as_many: { AsMany inflow.now outflow.now storage.now },
    ghost rows_numbered: { RowsNumbered setup.first (length inflow.now) },
}

impl<'a> fmt::Display for Rows<'a> {
    ghost output = { λ x. Some (lines_of x.setup x.pond.table.numbers.now x.inflow.now x.outflow.now x.storage.now) };

    fn fmt<W: fmt::Write>(&self, f: &mut fmt::Formatter<W>) -> fmt::Result {
        for k in 0..self.inflow.len() {
            let row = row_at(
                self.setup,
                &self.pond,
                k,
                self.inflow,
                self.outflow,
                self.storage,
            );
            write!(f, "{row}\n")?;
        }
        Ok(())
    }
}

// The pond of a table at half a step, by the engine's own tests: that of a study that was not refused passes them.
fn checked(numbers: &[u64], half: u64) -> Option<Pond<'_>>
    ensures { IfSome result (λ v. (v.half ≡ half) × (v.table.numbers.now ≡ numbers.now)) }
{
    if !(LEAST_HALF..=MOST_HALF).contains(&half) {
        return None;
    }
    match Table::check(numbers) {
        Ok(table) => Pond::check(&table, half).ok(),
        Err(_) => None,
    }
}

pub(crate) fn print_rows(
    out: &impl Print,
    study: &Study,
    inflow: &[u64],
    outflow: &[u64],
    storage: &[u64],
) -> io::Result<()>
    requires as_many { AsMany inflow.now outflow.now storage.now }
    requires rows_numbered { RowsNumbered study.now.setup.first (length inflow.now) }
{
    let setup = study.setup;
    let Some(pond) = checked(study.pond(), setup.step / 2) else {
        return Ok(());
    };
    let rows = Rows {
        setup,
        pond,
        inflow,
        outflow,
        storage,
    };
    println!(out;
        "\n             Row     h:mm:ss      Inflow, cf  Outflow, cfs      Storage, cf  Stage, ft"
    )?;
    print!(out; "{rows}")
}

pub(crate) fn print_figures(out: &impl Print, first: u64, f: Figures) -> io::Result<()>
    requires { (1 ≤ f.row) × RowsNumbered first f.row }
{
    let row = row_number(first, f.row);
    let inflow = Thousandths(f.inflow);
    let released = Thousandths(f.released);
    let storage = Thousandths(f.storage);
    println!(out; "\nTotal inflow   {inflow:>16} cf")?;
    println!(out; "Total released {released:>16} cf")?;
    println!(out; "Last storage   {storage:>16} cf")?;
    println!(out;
        "Peak outflow   {:>16} cfs in row {}",
        Thousandths(f.peak),
        row
    )?;
    println!(out; "Greatest stage {:>16} ft", Thousandths(f.stage))?;
    println!(out; "Surfaces       {:>16} ac", Hundredths(f.surfaces))?;
    println!(out; "Districts      {:>16} ac", Hundredths(f.districts))?;
    println!(out; "Lots           {:>16} ac", Hundredths(f.lots))?;
    println!(out; "Rural          {:>16} ac\n", Hundredths(f.rural))?;
    println!(out; "inflow = released + stored: {inflow} = {released} + {storage}")
}
