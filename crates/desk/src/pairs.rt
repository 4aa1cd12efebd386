// Kept lists of rows, and kept refusals, that differ: they show that the desk can say something else than `same`. No engine
// made them, and they count as no study.
use crate::verdicts;
use crate::verdicts::Said;
use engines::Verdict;
use refusals::{Refusal, Rule};
use std::io;

// The kept list beside another.
fn beside(other: &[u64]) -> Said {
    let list = [0, 120, 480, 310, 90];
    let verdict = Verdict {
        fast: Ok(()),
        slow: Ok(()),
        row: engines::first_differing(&list, other),
    };
    Said::of(verdict, other)
}

fn refused_apart() -> Said {
    let verdict = Verdict {
        fast: Err(Refusal {
            rule: Rule::Concentration,
            place: 2,
        }),
        slow: Err(Refusal {
            rule: Rule::Weights,
            place: 1,
        }),
        row: None,
    };
    Said::of(verdict, &[])
}

pub(crate) fn print_all(out: &impl Print) -> io::Result<()> {
    let first = beside(&[1, 120, 480, 310, 90]);
    verdicts::print(out, b"two kept lists, the first row differs", &first)?;
    let middle = beside(&[0, 120, 481, 310, 90]);
    verdicts::print(out, b"two kept lists, a middle row differs", &middle)?;
    let last = beside(&[0, 120, 480, 310, 89]);
    verdicts::print(out, b"two kept lists, the last row differs", &last)?;
    let longer = beside(&[0, 120, 480, 310, 90, 0]);
    verdicts::print(out, b"two kept lists, one longer by a row", &longer)?;
    verdicts::print(out, b"two kept refusals that differ", &refused_apart())
}
