// What the desk says of two answers: that they are the same, the first row that differs, or both refusals.
ghost use Rattle.std.specs.Prelude.{◌≡◌, not};
ghost use Rattle.engines.specs.Compared.{agrees};
ghost use Rattle.desk.specs.Says.{says_same};

use engines::Verdict;
use reading::Thousandths;
use refusals::Refusal;
use std::{fmt, io};

// The column in which verdicts start, and the blanks that stand before one at least.
const COLUMN: usize = 40;

const LEAST_GAP: usize = 2;

#[derive(Clone, Copy)]
pub(crate) enum Said {
    Same {
        rows: usize,
        greatest: u64,
    },
    BothRefuse(Refusal),
    Row(usize),
    Refusals {
        fast: Result<(), Refusal>,
        slow: Result<(), Refusal>,
    },
}

impl Said {
    // Of rows that the first engine left. Where the refusals differ, no row of a refused study says more.
    #[tactic(auto, unfolding(engines::specs::Compared::agrees))]
    pub(crate) fn of(verdict: Verdict, rows: &[u64]) -> Said
        ensures { says_same result ≡ agrees verdict }
    {
        let Verdict { fast, slow, row } = verdict;
        if engines::agree(verdict) {
            return match fast {
                Ok(()) => Said::Same {
                    rows: rows.len(),
                    greatest: rows.iter().copied().max().unwrap_or(0),
                },
                Err(refusal) => Said::BothRefuse(refusal),
            };
        }
        match row {
            Some(row) if fast == slow => Said::Row(row),
            _ => Said::Refusals { fast, slow },
        }
    }

    pub(crate) fn differs(&self) -> bool
        ensures { result ≡ not (says_same self.now) }
    {
        match self {
            Said::Same { .. } | Said::BothRefuse(_) => false,
            Said::Row(_) | Said::Refusals { .. } => true,
        }
    }
}

impl fmt::Display for Said {
    fn fmt<W: fmt::Write>(&self, f: &mut fmt::Formatter<W>) -> fmt::Result {
        match self {
            Said::Same { rows, greatest } => {
                let greatest = Thousandths(*greatest);
                write!(f, "same (rows {rows}, greatest inflow {greatest} cf)")
            }
            Said::BothRefuse(refusal) => write!(f, "same (both refuse: {refusal})"),
            Said::Row(row) => write!(f, "row {row}"),
            Said::Refusals { fast, slow } => {
                let (number, place) = refusals::told(*fast);
                let (other, elsewhere) = refusals::told(*slow);
                write!(
                    f,
                    "refusals differ (number {number}, place {place} by the first engine; number {other}, place {elsewhere} by the textbook's)"
                )
            }
        }
    }
}

// What is said, behind the name of what it is said of. The column counts bytes.
pub(crate) fn print(out: &impl Print, name: &[u8], said: &Said) -> io::Result<()> {
    let blanks = [b' '; COLUMN];
    out.write_all(name)?;
    out.write_all(&blanks[name.len().min(COLUMN - LEAST_GAP)..])?;
    println!(out; "{said}")
}
