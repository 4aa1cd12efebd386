// The largest number that passes a test, by halving.
ghost use Rattle.std.specs.Prelude.{ℕ, Bool, ◌+◌, ◌≤◌, ◌<◌};
ghost use Rattle.roots.specs.Largest.{most_power};
ghost use Rattle.roots.specs.Needs.{TryOk, Edge};

// A test of whole numbers.
pub(crate) trait Test {
    // What an answer tells of the number that is tried.
    ghost tells: { Self → ℕ → Bool → Type 0 };

    fn passes(&self, t: u64) -> bool
        requires { TryOk t }
        ensures { tells self.now t result };
}

// Where to try next: at the guess, beside it, one further up, then in the middle.
fn next(low: u64, high: u64, guess: Option<u64>) -> u64
    requires { (low + 1 < high) × (high ≤ most_power + 1) }
    ensures { (low < result) × (result < high) }
{
    if let Some(guess) = guess {
        if low < guess && guess < high {
            return guess;
        }
        if high == guess {
            return high - 1;
        }
        if guess <= low && low <= guess + 1 {
            return low + 1;
        }
    }
    (low + high) / 2
}

// A number below `past` that passes, where the next one does not. Where the guess is right, two tries are enough; else the rest
// of the range is halved. No count is known before, so the loop is a `while`.
pub(crate) fn largest<T: Test>(test: &T, past: u64, guess: Option<u64>) -> u64
    requires { (1 ≤ past) × (past ≤ most_power + 1) }
    ensures { Edge (T.tells test.now) past result }
{
    let mut low: u64 = 0;
    let mut high: u64 = past;
    while low + 1 < high {
        let mid = next(low, high, guess);
        if test.passes(mid) {
            low = mid;
        } else {
            high = mid;
        }
    }
    low
}
