// A guess at a root, in doubles. It says where to try first and decides nothing: every figure is decided by an exact test, which
// the guess only makes short.
ghost use Rattle.std.specs.Prelude.{◌≤◌, ⊤};
ghost use Rattle.wide.specs.Limbs.{Wide};
ghost use Rattle.roots.specs.Largest.{most_power};

use crate::PAST_POWER;
use crate::search::{Test, largest};

// About the number.
fn near(w: &[u64; wide::LIMBS]) -> f64
    requires { Wide w.now }
{
    let mut x: f64 = 0.0;
    for limb in w.iter().rev() {
        x = x * 4294967296.0 + *limb as u32 as f64;
    }
    x
}

// About x times t^n.
fn about(x: f64, t: f64, n: u64) -> f64 {
    let mut left = x;
    for _ in 0..n {
        left = left * t;
    }
    left
}

// The same test in doubles, for an even power. Its answer tells nothing.
#[derive(Clone, Copy, Debug, PartialEq)]
struct Guess {
    top: f64,
    bottom: f64,
    power: u64,
}

impl Test for Guess {
    ghost tells = { λ _ _ _. ⊤ };

    fn passes(&self, t: u64) -> bool {
        let t = t as u32 as f64;
        about(self.bottom, t * t, self.power / 2) <= self.top
    }
}

pub(crate) fn root(top: &[u64; wide::LIMBS], bottom: &[u64; wide::LIMBS], power: u64) -> u64
    requires { Wide top.now × Wide bottom.now }
    ensures { result ≤ most_power }
{
    let test = Guess {
        top: near(top),
        bottom: near(bottom),
        power,
    };
    largest(&test, PAST_POWER, None)
}
