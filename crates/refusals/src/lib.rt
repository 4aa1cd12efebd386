// Refusals in their order: a rule and a place of docs/SCOPE.md, and the first of several.
#![tactic(auto)]

ghost use Rattle.std.specs.Prelude.{◌≡◌, ℕ, Some, IfSome, ◌<◌};
ghost use Rattle.refusals.specs.Refusals.{number_of, told_by, none, or_else, check_of, charge, first_of, first_at, stopped};

use std::fmt;

// A rule of docs/SCOPE.md, by its number.
#[derive(Clone, Copy, Debug, PartialEq, Eq)]
pub enum Rule {
    Lengths = 1,
    Step = 2,
    Rain = 3,
    LastRow = 4,
    Subareas = 5,
    Patches = 6,
    Segments = 7,
    Area = 8,
    Concentration = 9,
    Coarse = 10,
    Weights = 11,
    PondTable = 12,
    PondHeld = 13,
    Over = 14,
    Place = 15,
    InflowRow = 16,
    Forged = 17,
    Row = 18,
    Rise = 19,
    SheetRule = 20,
}

impl Rule {
    // Its number in docs/SCOPE.md.
    pub fn number(self) -> u64
        ensures { result ≡ number_of self }
    {
        self as u64
    }
}

// A rule that has a number, by which it is told. A rule of docs/SCOPE.md has its own; a number is told as it is.
pub trait Numbered {
    ghost number: { Self → ℕ };

    fn number(self) -> u64
        ensures { result ≡ number self };
}

impl Numbered for Rule {
    ghost number = { number_of };

    fn number(self) -> u64 {
        Rule::number(self)
    }
}

impl Numbered for u64 {
    ghost number = { λ n. n };

    fn number(self) -> u64 {
        self
    }
}

// The rule of an order that is broken, and the place where; a rule that has no place has 0. The rules are `Rule` unless others are
// named: a study, an edit and a mark share them.
#[derive(Clone, Copy, Debug, PartialEq, Eq)]
pub struct Refusal<R = Rule> {
    pub rule: R,
    pub place: u64,
}

// `Ok` where the test holds, else the error.
pub fn check<E: Drop>(good: bool, error: E) -> Result<(), E>
    ensures { result ≡ check_of good error }
{
    if good { Ok(()) } else { Err(error) }
}

// Refused at the place that a search found, if it found one; the place counts from 1.
pub fn refused_at<R: Drop>(rule: R, at: Option<usize>) -> Result<(), Refusal<R>>
    requires { IfSome at (λ i. i < 18446744073709551615) }
    ensures { result ≡ first_of rule at }
{
    match at {
        Some(i) => Err(Refusal {
            rule,
            place: i as u64 + 1,
        }),
        None => Ok(()),
    }
}

// The same, for places that count from 0.
pub fn refused_at_entry<R: Drop>(rule: R, at: Option<usize>) -> Result<(), Refusal<R>>
    ensures { result ≡ first_at rule at }
{
    match at {
        Some(i) => Err(Refusal {
            rule,
            place: i as u64,
        }),
        None => Ok(()),
    }
}

// Where a search that gives the number of places for none has stopped: of use to the two scans below alone.
pub fn stopped(at: usize, many: usize) -> Option<usize>
    ensures { result ≡ stopped at many }
{
    if at < many { Some(at) } else { None }
}

// The number and the place that are told of a line: 0 and 0 for none.
pub fn told<R: Numbered>(line: Result<(), Refusal<R>>) -> (u64, u64)
    ensures { result ≡ told_by R.number line }
{
    match line {
        Ok(()) => (0, 0),
        Err(refusal) => (refusal.rule.number(), refusal.place),
    }
}

impl Refusal {
    // No refusal. Called nowhere: docs/PROMISES.md names its theorem.
    pub fn none() -> Result<(), Refusal>
        ensures { result ≡ none }
    {
        Ok(())
    }
}

// The number and the place, as a line tells them.
impl fmt::Display for Refusal {
    ghost use Rattle.refusals.specs.Text.{refusal_text};

    ghost output = { λ x. Some (refusal_text x) };

    fn fmt<W: fmt::Write>(&self, f: &mut fmt::Formatter<W>) -> fmt::Result {
        write!(f, "number {}, place {}", self.rule.number(), self.place)
    }
}

impl<R: Drop> Refusal<R> {
    // Refused at a place unless a test holds.
    pub fn charge(rule: R, good: bool, place: u64) -> Result<(), Refusal<R>>
        ensures { result ≡ charge rule good place }
    {
        check(good, Refusal { rule, place })
    }

    // Refused at the place where a scan of many places stopped early; the place counts from 1. Called nowhere, nor is the next:
    // docs/PROMISES.md names a theorem of each.
    pub fn first_of(rule: R, at: usize, many: usize) -> Result<(), Refusal<R>>
        ensures { result ≡ first_of rule (stopped at many) }
    {
        refused_at(rule, stopped(at, many))
    }

    // The same, for places that count from 0.
    pub fn first_at(rule: R, at: usize, many: usize) -> Result<(), Refusal<R>>
        ensures { result ≡ first_at rule (stopped at many) }
    {
        refused_at_entry(rule, stopped(at, many))
    }

    // The first of two that is a refusal. Called nowhere: docs/PROMISES.md names its theorem.
    pub fn or(
        first: Result<(), Refusal<R>>,
        later: Result<(), Refusal<R>>,
    ) -> Result<(), Refusal<R>>
        ensures { result ≡ or_else first later }
    {
        first.and(later)
    }
}
