// The pond's table and its rows behind their limits.
ghost use Rattle.std.specs.Prelude.{◌≤◌};
ghost use Rattle.pond.specs.Needs.{StateOk};

use crate::{ABOVE_LIMITS, Four};
use pond::{Pond, State, Table};
use refusals::Rule;
use rows::{Dry, Level};

// The most rows that a list of numbers routes.
const MOST_ROUTED: u64 = 64;

// The pond of a table at a half step, or the first rule that it breaks.
fn checked(numbers: &[u64], half: u64) -> Result<Pond<'_>, Rule> {
    if !(30..=1800).contains(&half) {
        return Err(Rule::Step);
    }
    let Ok(table) = Table::check(numbers) else {
        return Err(Rule::PondTable);
    };
    match Pond::check(&table, half) {
        Ok(pond) => Ok(pond),
        Err(_) => Err(Rule::PondHeld),
    }
}

// X of a row of the pond. The numbers: h, the row from 0, the pond.
pub(crate) fn sum(n: &[u64]) -> Option<u64> {
    let [half, row, numbers @ ..] = n else {
        return None;
    };
    match checked(numbers, *half) {
        Ok(pond) if *row < pond.table.rows() as u64 => Some(pond.sum_at(*row as usize)),
        _ => None,
    }
}

// A dry run of one row, which tells that row's own stage.
fn step(level: &Level<'_>, inflow: u64) -> Dry
    requires { inflow ≤ 1000000000000000 }
    ensures { StateOk level.now.pond.half level.now.pond.table.numbers.now result.last }
{
    rows::dry_run(level, &[inflow])
}

// There is no first figure; a refusal is the second.
fn unrouted(refused: Option<Rule>) -> Four {
    [None, refused.map(Rule::number), None, None]
}

// What the last row of inflow volumes leaves: outflow, storage, stage and X.
fn last_row(pond: &Pond<'_>, inflow: &[u64]) -> Four {
    let mut state = State::default();
    let mut stage = 0;
    let mut sum = 0;
    for &volume in inflow {
        if volume >= ABOVE_LIMITS {
            return unrouted(None);
        }
        sum = state.arrive(pond.half, volume);
        let dry = step(&Level::new(pond, state), volume);
        if dry.over.is_some() {
            return unrouted(Some(Rule::Over));
        }
        stage = dry.kept.stage;
        state = dry.last;
    }
    [
        Some(state.outflow),
        Some(state.storage),
        Some(stage),
        Some(sum),
    ]
}

// The numbers: h, how many rows, their inflow volumes, the pond.
pub(crate) fn routed(n: &[u64]) -> Four {
    let [half, rows, numbers @ ..] = n else {
        return unrouted(None);
    };
    if *rows > MOST_ROUTED || *rows > numbers.len() as u64 {
        return unrouted(None);
    }
    let (inflow, table) = numbers.split_at(*rows as usize);
    match checked(table, *half) {
        Ok(pond) => last_row(&pond, inflow),
        Err(rule) => unrouted(Some(rule)),
    }
}
