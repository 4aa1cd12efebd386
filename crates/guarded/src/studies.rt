// A whole study of a list of numbers: the site's own, through every check and every row.
ghost use Rattle.std.specs.Prelude.{◌≤◌};

use crate::Four;
use crate::functions::Asked;
use refusals::Refusal;
use study::Figures;
use subarea::Setup;

// The most rows that a list of numbers asks here.
const ROOM: usize = 400;

// More than a list of numbers has.
const MOST: u64 = 2048;

// A row's number is told in millions and what is over, since it may be above what is read as a number.
const MILLION: u64 = 1000000;

const MOST_MILLIONS: u64 = 10000000000;

// What a study is lent to read.
#[derive(Clone, Copy)]
struct Site<'a> {
    setup: Setup,
    rain: &'a [u64],
    subareas: &'a [u64],
    pond: &'a [u64],
}

// The greatest inflow row, the first that has it, from 1 and 0 where all are 0, and the total inflow.
fn greatest(rows: &[u64], total: u64) -> Four {
    let most = rows.iter().copied().max().unwrap_or(0);
    let row = match rows.iter().position(|&volume| volume == most) {
        Some(i) if most > 0 => i as u64 + 1,
        _ => 0,
    };
    [Some(most), Some(row), Some(total), None]
}

// Of a study that is done: no refusal; its greatest inflow row and total inflow; or its first figures.
fn done(asked: Asked, figures: &Figures, inflow: &[u64]) -> Four {
    match asked {
        Asked::Refusal => [Some(0), Some(0), None, None],
        Asked::Inflow => greatest(inflow, figures.inflow),
        Asked::Figures => [
            Some(figures.inflow),
            Some(figures.released),
            Some(figures.storage),
            Some(figures.peak),
        ],
    }
}

// A refusal's number and place; where figures are asked there are none.
fn refused(asked: Asked, refusal: Refusal) -> Four {
    match asked {
        Asked::Refusal => [Some(refusal.rule.number()), Some(refusal.place), None, None],
        Asked::Inflow | Asked::Figures => [None, Some(refusal.rule.number()), None, None],
    }
}

fn worked(asked: Asked, site: &Site<'_>, rows: usize) -> Four
    requires { rows ≤ 400 }
{
    let mut inflow = [0; ROOM];
    let mut outflow = [0; ROOM];
    let mut storage = [0; ROOM];
    let answer = study::run(
        site.setup,
        site.rain,
        site.subareas,
        site.pond,
        &mut inflow[..rows],
        &mut outflow[..rows],
        &mut storage[..rows],
    );
    match answer {
        Ok(figures) => done(asked, &figures, &inflow[..rows]),
        Err(refusal) => refused(asked, refusal),
    }
}

// The numbers: the step, the first row's number in millions and what is over, the sheet rule, how many rows, how many
// numbers of rain and of subareas, and then those and the pond's.
pub(crate) fn run(asked: Asked, n: &[u64]) -> Four {
    let Some((head, lists)) = n.split_first_chunk::<7>() else {
        return [None; 4];
    };
    let [step, millions, over, rule, rows, entries, records] = *head;
    if millions > MOST_MILLIONS || over >= MILLION || rows > ROOM as u64 {
        return [None; 4];
    }
    if entries > MOST || records > MOST || entries + records > lists.len() as u64 {
        return [None; 4];
    }
    let (rain, lists) = lists.split_at(entries as usize);
    let (subareas, pond) = lists.split_at(records as usize);
    let setup = Setup {
        step,
        first: millions * MILLION + over,
        rule,
    };
    let site = Site {
        setup,
        rain,
        subareas,
        pond,
    };
    worked(asked, &site, rows as usize)
}
