// The rows as an edit finds them, held against the old record's parts for refusal 16; and refusal 14 looked for with their new
// inflow. Half is half the step, in seconds.
#![tactic(auto)]

pub mod over;

ghost use Rattle.std.specs.Prelude.{◌≡◌, ℕ, ◌+◌, ◌≤◌, length};
ghost use Rattle.laws.specs.Limits.{most_rows};
ghost use Rattle.hydrograph.specs.Needs.{RainOk};
ghost use Rattle.sums.specs.Needs.{block_rows, NumbersOk};
ghost use Rattle.parts.specs.Needs.{part_by};
ghost use Rattle.fitting.specs.Needs.{fit_by, fit_of, fit_under};

use laws::limits;
use sums::Numbers;

// How far rows fit the old record: the first (from 0) that does not; and what the rows before it, or all of them, leave without the
// old record's parts.
#[derive(Clone, Copy, Debug, PartialEq, Eq)]
pub struct Fit {
    pub bad: Option<usize>,
    pub left: u64,
}

// The same of a block of rows, with the old record's parts of them.
fn fit_block(parts: &[u64], inflow: &[u64]) -> Fit
    requires { (length parts.now ≡ length inflow.now) × (length inflow.now ≤ most_rows) }
    ensures { result ≡ fit_under parts.now inflow.now }
{
    let mut left = 0;
    for i in 0..inflow.len() {
        let own = inflow[i];
        if !(parts[i]..=limits::MOST_INFLOW).contains(&own) {
            return Fit { bad: Some(i), left };
        }
        left += own - parts[i];
    }
    Fit { bad: None, left }
}

// The same of a block of rows after row `from`, of which the parts are worked out.
fn fit_next(old: Numbers, step: u64, rain: &[u64], from: usize, inflow: &[u64]) -> Fit
    requires { NumbersOk step old × (RainOk rain.now × ((1 ≤ length inflow.now) × ((length inflow.now ≤ block_rows) × (from + length inflow.now ≤ most_rows)))) }
    ensures { result ≡ fit_by (λ (i : ℕ). part_by step rain.now old (from + 1 + i)) inflow.now }
{
    let mut rows = [0u64; sums::BLOCK];
    let own = &mut rows[..inflow.len()];
    parts::add_block(old, step, rain, from, own);
    fit_block(own, inflow)
}

// 16, looked for block by block.
pub fn fit_rows(old: Numbers, step: u64, rain: &[u64], inflow: &[u64]) -> Fit
    requires { NumbersOk step old × (RainOk rain.now × (length inflow.now ≤ most_rows)) }
    ensures { result ≡ fit_of (part_by step rain.now old) inflow.now }
{
    let mut left = 0;
    let mut at = 0;
    for block in inflow.chunks(sums::BLOCK) {
        let fit = fit_next(old, step, rain, at, block);
        left += fit.left;
        if let Some(k) = fit.bad {
            return Fit {
                bad: Some(at + k),
                left,
            };
        }
        at += block.len();
    }
    Fit { bad: None, left }
}
