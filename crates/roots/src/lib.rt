// Whole roots, down: the largest T whose power, times a factor, is at most a bound.
#![tactic(auto)]

mod guess;
pub mod power;
mod search;
pub mod square;

// The first numbers that are not tried: a square root has 15 bits here, a root of any other power 23.
pub(crate) const PAST_SQUARE: u64 = 32768;

pub(crate) const PAST_POWER: u64 = 8388608;
