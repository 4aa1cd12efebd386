// What several crates share. The laws themselves stand in specs/ and proofs/; no engine code here but what stands below.
#![tactic(auto)]

pub mod limits;

ghost use Rattle.std.specs.Prelude.{◌≡◌, ◌&&◌, ℕ, min, length};
ghost use Rattle.laws.specs.Within.{within};
ghost use Rattle.laws.specs.Listed.{rows_from};

// Each function below is one line over std. docs/PROMISES.md names a law of each, so they stay; code writes std's word itself,
// but for `clear`, whose zeros are told as rows.

// Both tests hold.
pub fn both(a: bool, b: bool) -> bool
    ensures { result ≡ (a && b) }
{
    a && b
}

// A number is from least to most.
pub fn within(least: u64, x: u64, most: u64) -> bool
    ensures { result ≡ within least x most }
{
    (least..=most).contains(&x)
}

// The lesser of two.
pub fn least(a: usize, b: usize) -> usize
    ensures { result ≡ min a b }
{
    a.min(b)
}

// A narrow number, of a list that is kept short, as it is worked with.
pub fn wide(x: u32) -> u64
    ensures { result ≡ x }
{
    u64::from(x)
}

// Writes zeros over a list.
#[tactic(auto, using(crate::proofs::Listed::zeros_all))]
pub fn clear(rows: &mut [u64])
    ensures { rows.new ≡ rows_from (λ (k : ℕ). 0) 1 (length rows.old) }
{
    rows.fill(0);
}
