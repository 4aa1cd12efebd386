//! Routing over lists of rows, and the figures of rows that stand in lists.
//! Units: inflow volumes and storage in thousandths of a cubic foot, outflow in thousandths of a cfs, stage in thousandths
//! of a ft; half is half the step, in seconds.
#![tactic(auto)]

ghost use Rattle.std.specs.Prelude.{◌≡◌, ◌++◌, ◌+◌, ◌-◌, ◌*◌, ◌≤◌, ◌<◌, length, take, drop, IfSome};
ghost use Rattle.pond.specs.Needs.{PondOk, StateOk};
ghost use Rattle.laws.specs.Limits.{most_rows};
ghost use Rattle.pond.specs.PondRows.{last_sum, last_discharge};
ghost use Rattle.rows.specs.Routing.{outflows, storages, passed, state_before, total};
ghost use Rattle.rows.specs.Needs.{tide_of, dry_of, InflowOk, tally_none, tally_to, tally_with, tally_on, kept_of, TurnOk, SumsOk, RoomOk, RowsBefore, RowsOk};
ghost use Rattle.rows.specs.Figures.{figures_of, stands_good, first_forged};

use pond::{Pond, State};

/// Of the rows so far: total released, peak outflow with the first row that has it (from 1), greatest row stage.
#[derive(Clone, Copy, Debug, PartialEq, Eq)]
pub struct Kept {
    pub released: u64,
    pub peak: u64,
    pub row: u64,
    pub stage: u64,
}

/// What a dry run keeps: the first row that went over (from 0), the figures of the rows before it, the state after them.
#[derive(Clone, Copy, Debug, PartialEq, Eq)]
pub struct Dry {
    pub over: Option<usize>,
    pub kept: Kept,
    pub last: State,
}

/// What a block of rows run dry leaves: the first of them that went over (from 0), the state after the rows that pass, and the
/// inflow of all of them.
#[derive(Clone, Copy, Debug, PartialEq, Eq)]
pub struct Tide {
    pub over: Option<usize>,
    pub last: State,
    pub inflow: u64,
}

/// Figures of standing rows.
#[derive(Clone, Copy, Debug, PartialEq, Eq)]
pub struct RowFigures {
    pub inflow: u64,
    pub storage: u64,
    pub kept: Kept,
}

/// A pond and what a row leaves in it.
#[derive(Clone, Copy, Debug, PartialEq, Eq)]
pub struct Level<'a> {
    pub pond: Pond<'a>,
    pub state: State,
    pub ghost sound: { StateOk pond.half pond.table.numbers.now state },
}

impl<'a> Level<'a> {
    /// A state that is known to be a pond's: nothing is tested.
    pub fn new(pond: &Pond<'a>, state: State) -> Level<'a>
        requires { StateOk pond.now.half pond.now.table.numbers.now state }
        ensures pond { result.pond ≡ pond.now }
        ensures state { result.state ≡ state }
    {
        Level { pond: *pond, state }
    }
}

/// Of the rows so far, from which their figures are told at the end: total inflow, total released, peak outflow with the
/// first row that has it (from 1), greatest X.
#[derive(Clone, Copy, Debug, PartialEq, Eq)]
struct Tally {
    inflow: u64,
    released: u64,
    peak: u64,
    row: u64,
    most: u64,
}

impl Tally {
    /// Of no rows.
    fn none() -> Tally
        ensures { result ≡ tally_none }
    {
        Tally {
            inflow: 0,
            released: 0,
            peak: 0,
            row: 1,
            most: 0,
        }
    }

    /// One row more: its inflow volume, the outflow before it, its own, its X, and its number from 1. The first of equal
    /// peaks stays.
    fn turn(self, half: u64, inflow: u64, before: u64, outflow: u64, x: u64, row: u64) -> Tally
        requires { TurnOk self half inflow before outflow }
        ensures { result ≡ tally_with self half inflow before outflow x row }
    {
        Tally {
            inflow: self.inflow + inflow,
            released: self.released + half * (before + outflow),
            peak: self.peak.max(outflow),
            row: if self.peak < outflow { row } else { self.row },
            most: self.most.max(x),
        }
    }

    /// What the tally of so many rows tells. The stage never falls as X rises, so the greatest is that at the greatest X; of
    /// no rows it is 0.
    #[tactic(auto, unfolding(crate::specs::Needs::kept_of))]
    fn kept(self, pond: &Pond<'_>, rows: usize) -> Kept
        requires { self.most ≤ last_sum pond.now.half pond.now.table.numbers.now }
        ensures { result ≡ kept_of pond.now.half pond.now.table.numbers.now self rows }
    {
        let stage = if rows == 0 {
            0
        } else {
            pond.stage_at(self.most)
        };
        Kept {
            released: self.released,
            peak: self.peak,
            row: self.row,
            stage,
        }
    }
}

/// Routes a list of inflow volumes from a level and writes nothing: it stops at the first row that goes over.
// Two loops, this and `write_tail`: one stops and writes nothing, the other writes and has no row to stop at.
pub fn dry_run(level: &Level<'_>, inflow: &[u64]) -> Dry
    requires { InflowOk inflow.now × (length inflow.now ≤ most_rows) }
    ensures { result ≡ dry_of level.now.pond.half level.now.pond.table.numbers.now level.now.state inflow.now }
{
    let top = level.pond.last_sum();
    let mut last = level.state;
    let mut tally = Tally::none();
    for i in 0..inflow.len() {
        let x = last.arrive(level.pond.half, inflow[i]);
        if top < x {
            return Dry {
                over: Some(i),
                kept: tally.kept(&level.pond, i),
                last,
            };
        }
        let next = level.pond.settle(x);
        tally = tally.turn(
            level.pond.half,
            inflow[i],
            last.outflow,
            next.outflow,
            x,
            i as u64 + 1,
        );
        last = next;
    }
    Dry {
        over: None,
        kept: tally.kept(&level.pond, inflow.len()),
        last,
    }
}

/// All inflow volumes of a list together.
pub fn sum_of(list: &[u64]) -> u64
    requires { InflowOk list.now × (length list.now ≤ most_rows) }
    ensures { result ≡ total list.now }
{
    list.iter().sum()
}

/// The state before row a (from 0), as the rows have it.
#[tactic(auto, unfolding(crate::specs::Routing::state_before))]
pub fn state_before(outflow: &[u64], storage: &[u64], a: usize) -> State
    requires { (a ≤ length outflow.now) × (a ≤ length storage.now) }
    ensures { result ≡ state_before outflow.now storage.now a }
{
    if a == 0 {
        return State::default();
    }
    State {
        storage: storage[a - 1],
        outflow: outflow[a - 1],
    }
}

/// The tally of the rows before row a, as they stand.
fn tally_of(half: u64, inflow: &[u64], outflow: &[u64], storage: &[u64], a: usize) -> Tally
    requires sums_ok { SumsOk half outflow.now storage.now a × (InflowOk inflow.now × (a ≤ most_rows)) }
    requires a_in_bounds { (a ≤ length inflow.now) × ((a ≤ length outflow.now) × (a ≤ length storage.now)) }
    ensures { result ≡ tally_to half 0 inflow.now outflow.now storage.now a }
{
    let mut tally = Tally::none();
    let mut before = 0;
    // By place: three lists are read beside each other, and no further than row a.
    for i in 0..a {
        let own = outflow[i];
        let x = storage[i] + half * own;
        tally = tally.turn(half, inflow[i], before, own, x, i as u64 + 1);
        before = own;
    }
    tally
}

/// Writes the outflow and storage of rows that all pass, and goes on with the tally of the a rows before them.
fn write_tail(
    level: &Level<'_>,
    earlier: Tally,
    a: usize,
    inflow: &[u64],
    outflow: &mut [u64],
    storage: &mut [u64],
) -> Tally
    requires room { InflowOk inflow.now × RoomOk earlier a (length inflow.now) }
    requires passes { passed level.now.pond.half level.now.pond.table.numbers.now level.now.state inflow.now ≡ length inflow.now }
    requires lengths { (length outflow.old ≡ length inflow.now) × (length storage.old ≡ length inflow.now) }
    ensures value { result ≡ tally_on level.now.pond.half level.now.pond.table.numbers.now earlier a level.now.state inflow.now }
    ensures outflow_after { outflow.new ≡ outflows level.now.pond.half level.now.pond.table.numbers.now level.now.state inflow.now }
    ensures storage_after { storage.new ≡ storages level.now.pond.half level.now.pond.table.numbers.now level.now.state inflow.now }
{
    let mut tally = earlier;
    let mut last = level.state;
    // By place: after `iter_mut` with a second list nothing is known of what was written.
    for i in 0..inflow.len() {
        let x = last.arrive(level.pond.half, inflow[i]);
        let next = level.pond.settle(x);
        let row = (a + i) as u64 + 1;
        tally = tally.turn(
            level.pond.half,
            inflow[i],
            last.outflow,
            next.outflow,
            x,
            row,
        );
        outflow[i] = next.outflow;
        storage[i] = next.storage;
        last = next;
    }
    tally
}

/// Runs a block of rows dry.
pub fn tide_after(level: &Level<'_>, inflow: &[u64]) -> Tide
    requires { InflowOk inflow.now × (length inflow.now ≤ most_rows) }
    ensures { result ≡ tide_of level.now.pond.half level.now.pond.table.numbers.now level.now.state inflow.now }
{
    tide_of_rows(
        level.pond.table.numbers,
        level.pond.half,
        level.state,
        inflow,
    )
}

/// The same of a level's parts: its callers work far down the stack, and a level that is lent would lie there through the call.
fn tide_of_rows(numbers: &[u64], half: u64, state: State, inflow: &[u64]) -> Tide
    requires level { PondOk half numbers.now × StateOk half numbers.now state }
    requires rows { InflowOk inflow.now × (length inflow.now ≤ most_rows) }
    ensures { result ≡ tide_of half numbers.now state inflow.now }
{
    let level = Level::new(&Pond::new(numbers, half), state);
    let dry = dry_run(&level, inflow);
    Tide {
        over: dry.over,
        last: dry.last,
        inflow: sum_of(inflow),
    }
}

/// Writes the rows from row a on, which all pass, from the state that the rows before it have, and gives the figures of all
/// rows then standing. The rows before a are only read: those from a on are lent onward as tails.
pub fn write_from(
    pond: &Pond<'_>,
    inflow: &[u64],
    outflow: &mut [u64],
    storage: &mut [u64],
    a: usize,
) -> RowFigures
    requires rows_ok { RowsBefore pond.now.half pond.now.table.numbers.now outflow.old storage.old a × (InflowOk inflow.now × (a ≤ length inflow.now)) }
    requires passes { passed pond.now.half pond.now.table.numbers.now (state_before outflow.old storage.old a) (drop a inflow.now) ≡ length inflow.now - a }
    requires lengths { (length outflow.old ≡ length inflow.now) × ((length storage.old ≡ length inflow.now) × ((1 ≤ length inflow.now) × (length inflow.now ≤ most_rows))) }
    ensures value { result ≡ figures_of pond.now.half pond.now.table.numbers.now inflow.now outflow.new storage.new }
    ensures outflow_after { outflow.new ≡ take a outflow.old ++ outflows pond.now.half pond.now.table.numbers.now (state_before outflow.old storage.old a) (drop a inflow.now) }
    ensures storage_after { storage.new ≡ take a storage.old ++ storages pond.now.half pond.now.table.numbers.now (state_before outflow.old storage.old a) (drop a inflow.now) }
{
    let m = inflow.len();
    let earlier = tally_of(pond.half, inflow, outflow, storage, a);
    let state = state_before(outflow, storage, a);
    let level = Level::new(pond, state);
    let tally = write_tail(
        &level,
        earlier,
        a,
        &inflow[a..],
        &mut outflow[a..],
        &mut storage[a..],
    );
    RowFigures {
        inflow: tally.inflow,
        storage: storage[m - 1],
        kept: tally.kept(pond, m),
    }
}

/// One row can be a pond's: tested so that no sum of any two numbers wraps.
fn stands_good(pond: &Pond<'_>, most: u64, top: u64, outflow: u64, storage: u64) -> bool
    requires { (most ≡ last_discharge pond.now.table.numbers.now) × (top ≡ last_sum pond.now.half pond.now.table.numbers.now) }
    ensures { result ≡ stands_good pond.now.half pond.now.table.numbers.now outflow storage }
{
    if most < outflow {
        return false;
    }
    let part = pond.half * outflow;
    if top < storage {
        return false;
    }
    // `&` and not `&&`, which branches: nearly all of a mark is spent here.
    (part <= storage) & (storage + part <= top)
}

/// The first row (from 0) that cannot be a pond's. Any numbers may stand in the rows.
pub fn first_forged(pond: &Pond<'_>, outflow: &[u64], storage: &[u64]) -> Option<usize>
    requires { length storage.now ≡ length outflow.now }
    ensures value { result ≡ first_forged pond.now.half pond.now.table.numbers.now outflow.now storage.now }
    ensures row { IfSome result (λ i. i < length outflow.now) }
{
    let top = pond.last_sum();
    let most = pond.table.last_discharge();
    (0..outflow.len()).position(|i| !stands_good(pond, most, top, outflow[i], storage[i]))
}

/// The figures of standing rows.
pub fn figures_of(pond: &Pond<'_>, inflow: &[u64], outflow: &[u64], storage: &[u64]) -> RowFigures
    requires { RowsOk pond.now.half pond.now.table.numbers.now outflow.now storage.now × (InflowOk inflow.now × ((length inflow.now ≡ length outflow.now) × (1 ≤ length outflow.now))) }
    ensures { result ≡ figures_of pond.now.half pond.now.table.numbers.now inflow.now outflow.now storage.now }
{
    let m = outflow.len();
    let tally = tally_of(pond.half, inflow, outflow, storage, m);
    RowFigures {
        inflow: tally.inflow,
        storage: storage[m - 1],
        kept: tally.kept(pond, m),
    }
}
