// The follower's parameters for a delay, by the recipe for a Bessel filter with two poles.
ghost use Rattle.std.specs.Prelude.{◌≡◌, ℕ, ◌+◌, ◌-◌, ◌*◌, ◌/◌, ◌^◌, ◌<◌, ◌≤◌, max, ℤ, pos, unsigned_abs};
ghost use Rattle.bessel.specs.Tangent.{warped};
ghost use Rattle.bessel.specs.Parameters.{divisor, gain, first, second, rounded, parameters, InRange, Balanced};

use crate::tangent::warp_alpha;

// A follower's parameters in Q24: the weights of its last output and of the one before, and the gain of its inputs.
#[derive(Clone, Copy, PartialEq, Eq, Debug)]
pub struct Parameters {
    pub c0: i32,
    pub c1: i32,
    pub g: i32,
}

// The shortest delay that has parameters; a shorter one takes these.
const SHORTEST_DELAY: u32 = 4;

// The tangent of 1 / delay half turns in Q12, at least 1.
fn delay_tangent(delay: u32) -> u64
    ensures value { result ≡ max (warped (2 ^ 24 / max delay 4)) 1 }
    ensures least { 1 ≤ result }
    ensures small { result ≤ 2 ^ 17 }
{
    warp_alpha((1 << 24) / delay.max(SHORTEST_DELAY)).max(1)
}

// 1 + k1 + k2 in Q15, from k1 in Q12 and k2 in Q24, to the nearest.
fn divisor(k1: u64, k2: u64) -> u64
    requires { (k1 < 2 ^ 19) × (k2 < 2 ^ 36) }
    ensures value { result ≡ divisor k1 k2 }
    ensures least { 2 ^ 15 ≤ result }
    ensures over { k2 < result * 2 ^ 9 }
{
    (((1 << 12) + k1) * (1 << 12) + k2 + 256) >> 9
}

// The gain k2 / (1 + k1 + k2) in Q32. Its bound stands in three contracts: a struct around one number that lives in one
// function would be longer.
fn gain(k1: u64, k2: u64) -> u64
    requires { (k1 < 2 ^ 19) × ((0 < k2) × (k2 < 2 ^ 36)) }
    ensures value { result ≡ gain k1 k2 }
    ensures small { result < 2 ^ 32 }
    ensures near { result * (2 ^ 48 / k2) ≤ 2 ^ 56 }
{
    k2 * (1 << 23) / divisor(k1, k2)
}

// The weight of the last output, 2 * gain * (1 / k2 - 1), in Q56.
fn first_of(a: u64, ik2: u64) -> i64
    requires { (a < 2 ^ 32) × ((ik2 ≤ 2 ^ 48) × (a * ik2 ≤ 2 ^ 56)) }
    ensures value { result ≡ first a ik2 }
    ensures small { unsigned_abs result ≤ 2 ^ 57 }
{
    (2 * a) as i64 * (ik2 as i64 - (1 << 24))
}

// The weight of the output before it, in Q56: what all the weights lack of 1.
fn second_of(a: u64, b1: i64) -> i64
    requires { (a < 2 ^ 32) × (unsigned_abs b1 ≤ 2 ^ 57) }
    ensures value { result ≡ second a b1 }
    ensures small { unsigned_abs result ≤ 5 * 2 ^ 56 }
{
    (1 << 56) - (4 * a * (1 << 24)) as i64 - b1
}

// From Q56 to the nearest in Q24.
fn rounded(b: i64) -> i32
    requires { unsigned_abs b ≤ 5 * 2 ^ 56 }
    ensures value { result ≡ rounded b }
    ensures first { unsigned_abs b ≤ 2 ^ 57 → unsigned_abs result ≤ 2 ^ 25 }
    ensures second { unsigned_abs result ≤ 5 * 2 ^ 24 }
{
    ((b + (1 << 31)) >> 32) as i32
}

// The follower's parameters for a delay. A delay below 4 has those of 4. At every delay they stay in range, and the
// weights and 4 gains make up 1 but for 3 units of rounding, so that a steady input is answered by itself.
pub fn iir_bessel2_get_parameters(delay: u32) -> Parameters
    ensures value { result ≡ parameters delay }
    ensures range { InRange result }
    ensures balance { Balanced result }
{
    let warp = delay_tangent(delay);
    let k1 = 3 * warp;
    let k2 = k1 * warp;
    let a = gain(k1, k2);
    let b1 = first_of(a, (1 << 48) / k2);
    Parameters {
        c0: rounded(b1),
        c1: rounded(second_of(a, b1)),
        g: ((a + 128) >> 8) as i32,
    }
}
