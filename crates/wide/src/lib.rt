// Whole numbers of 384 bits: LIMBS limbs of 32 bits each, lowest first, each in a place of 64 bits, so that a product and a carry
// fit one.
#![tactic(auto)]

ghost use Rattle.std.specs.Prelude.{◌≡◌, ◌*◌, ◌^◌, ◌<◌, leb};
ghost use Rattle.wide.specs.Limbs.{value, Wide, Holds, TimesOk, PowerOk, OneOk, TwoOk, ThreeOk};

pub const LIMBS: usize = 12;

// A number below 2^32.
fn from(x: u64) -> [u64; LIMBS]
    requires { x < 2 ^ 32 }
    ensures { Holds result x }
{
    let mut w = [0u64; LIMBS];
    w[0] = x;
    w
}

// Multiplies by a factor.
fn times(w: &mut [u64; LIMBS], factor: u64)
    requires { TimesOk w.old factor }
    ensures { Holds w.new (value w.old * factor) }
{
    let mut carry: u64 = 0;
    for limb in w {
        let p = *limb * factor + carry;
        *limb = p % 4294967296;
        carry = p / 4294967296;
    }
}

// Multiplies by a power of a factor, one factor a turn.
fn times_turns(w: &mut [u64; LIMBS], factor: u64, exponent: u64)
    requires { PowerOk w.old factor exponent }
    ensures { Holds w.new (value w.old * factor ^ exponent) }
{
    for _ in 0..exponent {
        times(w, factor);
    }
}

// Multiplies by a power of a factor, where its square is below 2^32 two factors a turn.
pub fn times_power(w: &mut [u64; LIMBS], factor: u64, exponent: u64)
    requires { PowerOk w.old factor exponent }
    ensures { Holds w.new (value w.old * factor ^ exponent) }
{
    if factor < 65536 {
        times_turns(w, factor * factor, exponent / 2);
        times_turns(w, factor, exponent % 2);
        return;
    }
    times_turns(w, factor, exponent);
}

// A power.
fn one_power(a: u64, i: u64) -> [u64; LIMBS]
    requires { OneOk a i }
    ensures { Holds result (a ^ i) }
{
    let mut w = from(1);
    times_power(&mut w, a, i);
    w
}

// A product of two powers. One product over a list of powers took 10 to 36 per cent more of a sheet's or a channel's time.
pub fn two_powers(a: u64, i: u64, b: u64, j: u64) -> [u64; LIMBS]
    requires { TwoOk a i b j }
    ensures { Holds result (a ^ i * b ^ j) }
{
    let mut w = one_power(a, i);
    times_power(&mut w, b, j);
    w
}

// A product of three powers; the same holds of it.
pub fn three_powers(a: u64, i: u64, b: u64, j: u64, c: u64, k: u64) -> [u64; LIMBS]
    requires { ThreeOk a i b j c k }
    ensures { Holds result (a ^ i * b ^ j * c ^ k) }
{
    let mut w = two_powers(a, i, b, j);
    times_power(&mut w, c, k);
    w
}

// One number is at most another. The highest limb in which they differ says so.
pub fn at_most(a: &[u64; LIMBS], b: &[u64; LIMBS]) -> bool
    requires { Wide a.now × Wide b.now }
    ensures { result ≡ leb (value a.now) (value b.now) }
{
    for i in (0..LIMBS).rev() {
        if a[i] < b[i] {
            return true;
        }
        if b[i] < a[i] {
            return false;
        }
    }
    true
}
