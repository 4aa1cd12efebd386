// The root of a power over numbers that outgrow 64 bits.
ghost use Rattle.std.specs.Prelude.{◌≡◌};
ghost use Rattle.wide.specs.Limbs.{value};
ghost use Rattle.roots.specs.Largest.{largest, powers, most_power};
ghost use Rattle.roots.specs.Needs.{RootOk};

use crate::search::{Test, largest};
use crate::{PAST_POWER, guess};

// T^power times bottom is at most top.
#[derive(Clone, Copy, Debug, PartialEq, Eq)]
struct Powers<'a> {
    top: &'a [u64; wide::LIMBS],
    bottom: &'a [u64; wide::LIMBS],
    power: u64,
    ghost ok: { RootOk top.now bottom.now power },
}

impl Test for Powers<'_> {
    ghost tells = { λ s t b. b ≡ powers s.power (value s.bottom.now) (value s.top.now) t };

    fn passes(&self, t: u64) -> bool {
        let mut left = *self.bottom;
        wide::times_power(&mut left, t, self.power);
        wide::at_most(&left, self.top)
    }
}

// The largest T below 2^23 of which T^power times bottom is at most top.
pub fn root(top: &[u64; wide::LIMBS], bottom: &[u64; wide::LIMBS], power: u64) -> u64
    requires { RootOk top.now bottom.now power }
    ensures { result ≡ largest (powers power (value bottom.now) (value top.now)) most_power }
{
    let guess = guess::root(top, bottom, power);
    largest(&Powers { top, bottom, power }, PAST_POWER, Some(guess))
}
