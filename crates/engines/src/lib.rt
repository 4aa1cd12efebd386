// Both engines of the inflow rows beside each other: the first, `inflow`, and the textbook's, `textbook`.
#![tactic(auto)]

ghost use Rattle.std.specs.Prelude.{◌≡◌, ◌==◌, not, position};
ghost use Rattle.std.specs.List.{zip};
ghost use Rattle.checks.specs.Site.{basin, found};
ghost use Rattle.inflow.specs.Inflow.{inflow_after};
ghost use Rattle.textbook.specs.Textbook.{textbook_after};
ghost use Rattle.engines.specs.Compared.{alike_in, first_differing, verdict_of, agrees_by};

use refusals::{Numbered, Refusal, Rule};
use subarea::Setup;

// What each engine answers, and the first row, from 1, in which their lists differ, if there is one.
#[derive(Clone, Copy, Debug, PartialEq, Eq)]
pub struct Verdict<R = Rule> {
    pub fast: Result<(), Refusal<R>>,
    pub slow: Result<(), Refusal<R>>,
    pub row: Option<usize>,
}

// The first row, from 0, of those that both lists have, that differs.
fn first_unlike(a: &[u64], b: &[u64]) -> Option<usize>
    ensures { result ≡ position (λ p. not (p.0 == p.1)) (zip a.now b.now) }
{
    a.iter().zip(b).position(|(x, y)| x != y)
}

// How many rows are the same in both lists before the first that is not: a count, so not an `Option`.
fn alike(a: &[u64], b: &[u64]) -> usize
    ensures { result ≡ alike_in a.now b.now }
{
    first_unlike(a, b).unwrap_or(a.len().min(b.len()))
}

// The first row, from 1, that differs, or that only one of two lists has; none where they are the same.
#[tactic(auto, unfolding(crate::specs::Compared::first_differing))]
pub fn first_differing(a: &[u64], b: &[u64]) -> Option<usize>
    ensures { result ≡ first_differing a.now b.now }
{
    let i = alike(a, b);
    if i == a.len() && i == b.len() {
        None
    } else {
        Some(i + 1)
    }
}

// Runs both engines, each on its own list of rows.
pub fn compare(
    setup: Setup,
    rain: &[u64],
    subareas: &[u64],
    fast: &mut [u64],
    slow: &mut [u64],
    outflow: &[u64],
    storage: &[u64],
) -> Verdict
    ensures value { result ≡ verdict_of (basin setup rain.now subareas.now) (found fast.old outflow.now storage.now) (found slow.old outflow.now storage.now) }
    ensures fast_after { fast.new ≡ inflow_after (basin setup rain.now subareas.now) (found fast.old outflow.now storage.now) }
    ensures slow_after { slow.new ≡ textbook_after (basin setup rain.now subareas.now) (found slow.old outflow.now storage.now) }
{
    let first = inflow::run(setup, rain, subareas, fast, outflow, storage);
    let second = textbook::run(setup, rain, subareas, slow, outflow, storage);
    let row = first_differing(fast, slow);
    Verdict {
        fast: first,
        slow: second,
        row,
    }
}

// Did both answer the same, by number and place, and leave the same rows?
pub fn agree<R: Numbered>(own: Verdict<R>) -> bool
    ensures { result ≡ agrees_by R.number own }
{
    refusals::told(own.fast) == refusals::told(own.slow) && own.row.is_none()
}
