// Runoff depth of a cumulative rain, in thousandths of an inch, on a curve number, in tenths.
#![tactic(auto)]

ghost use Rattle.std.specs.Prelude.{◌≡◌, ◌≤◌};
ghost use Rattle.curve.specs.Needs.{CurveOk};
ghost use Rattle.laws.specs.Limits.{most_rain};
ghost use Rattle.runoff.specs.RunoffDepth.{depth};

// The runoff in millionths of an inch. The test comes before the difference: a drizzle, for which
// the difference would be negative, never has it squared.
#[tactic(auto, using(crate::proofs::Rising::depth_none))]
pub fn depth(tenths: u64, rain: u64) -> u64
    requires { CurveOk tenths × (rain ≤ most_rain) }
    ensures { result ≡ depth tenths rain }
{
    let product = tenths * rain;
    let wetted = product + 2000 * tenths;
    if wetted <= 2000000 {
        return 0;
    }
    let n = wetted - 2000000;
    let m = product + 8000000 - 8000 * tenths;
    1000 * (n * n) / (tenths * m)
}
