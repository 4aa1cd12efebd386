// The square root of one number.
ghost use Rattle.std.specs.Prelude.{◌≡◌, ◌^◌, ◌<◌};
ghost use Rattle.roots.specs.Largest.{largest, powers, most_square};

use crate::PAST_SQUARE;
use crate::search::{Test, largest};

// T^2 is at most the number.
#[derive(Clone, Copy, Debug, PartialEq, Eq)]
struct Square(u64);

impl Test for Square {
    ghost tells = { λ s t b. b ≡ powers 2 1 s.0 t };

    fn passes(&self, t: u64) -> bool {
        t * t <= self.0
    }
}

// Halving takes 15 rounds, whatever the square.
pub fn root(square: u64) -> u64
    requires { square < 2 ^ 30 }
    ensures { result ≡ largest (powers 2 1 square) most_square }
{
    largest(&Square(square), PAST_SQUARE, None)
}
