// The binary exponential of a logarithm in Q57, by 34 turns on the high digits and 30 more for the
// low ones. It rests on the tables and the parts of a turn.
ghost use Rattle.std.specs.Prelude.{◌≡◌, ℕ, ◌+◌, ◌-◌, ◌*◌, ◌^◌, ◌<◌, ◌≤◌, ℤ, pos, ◌+ℤ◌, neg_ℤ, ◌≤ℤ◌, ◌<ℤ◌, unsigned_abs};
ghost use Rattle.logexp.specs.Cordic.{shr};
ghost use Rattle.logexp.specs.LogExp.{exp_turn, exp_turns, tail_turn, tail, scaled, rounded, bexp64};
ghost use Rattle.logexp.specs.Laws.{ExactPower, PowerBand};
ghost use Rattle.logexp.specs.Bounds.{ExpIn, TailIn};

use crate::tables::step_of;
use crate::turns::{along, shr, turned};

// The power w in Q61, and what is left of the logarithm in z.
#[derive(Clone, Copy)]
struct Exp {
    w: i64,
    z: i64,
}

// The low digits of the power, below the last one of w, and what is left of the logarithm.
#[derive(Clone, Copy)]
struct Tail {
    lo: i64,
    z: i64,
}

// One turn: w grows or shrinks by its part w >> (i + 1), and z comes nearer to 0.
fn exp_turn(k: usize, e: Exp) -> Exp
    requires { (k < 34) × (ExpIn k e) }
    ensures { result ≡ exp_turn k e }
{
    Exp {
        w: e.w + along(e.z, shr(e.w, step_of(k) + 1)),
        z: turned(k, e.z),
    }
}

// The first 34 turns, on the high digits. The starting w is 2^61 divided by the product of
// sqrt(1 - 4^-(i + 1)) over the steps i, which the turns multiply it by whatever their signs.
fn exp_turns(z: i64) -> Exp
    requires { unsigned_abs z ≤ 2 ^ 62 }
    ensures value { result ≡ exp_turns z 34 }
    ensures near { ExpIn 34 result }
{
    let mut e = Exp {
        w: 0x26A3D0E401DD846D,
        z,
    };
    for k in 0..34 {
        e = exp_turn(k, e);
    }
    e
}

// One of the last 30 turns, which reach only the low digits: w stays as it is.
fn tail_turn(w: i64, k: usize, t: Tail) -> Tail
    requires { (k < 30) × (TailIn w k t) }
    ensures { result ≡ tail_turn w (34 + k) t }
{
    Tail {
        lo: t.lo + along(t.z, shr(w, step_of(34 + k))),
        z: turned(34 + k, t.z),
    }
}

// The low digits, where the power has more than 31 whole digits; else 0.
fn tail_of(ipart: u32, e: Exp) -> i64
    requires { ExpIn 34 e }
    ensures value { result ≡ tail ipart e }
    ensures near { neg_ℤ e.w ≤ℤ result }
{
    if ipart <= 30 {
        return 0;
    }
    let mut t = Tail { lo: 0, z: e.z };
    for k in 0..30 {
        t = tail_turn(e.w, k, t);
    }
    t.lo
}

// 2^62 times the power of two of a fraction in Q57. That powers are not negative stays in clauses, since the original
// reckons with signed numbers, as do all callers.
fn scaled(ipart: u32, z: i64) -> i64
    requires { (pos 0 ≤ℤ z) × (z <ℤ pos (2 ^ 57)) }
    ensures value { result ≡ scaled ipart z }
    ensures near { pos 0 ≤ℤ result }
{
    if z == 0 {
        return 1 << 62;
    }
    let e = exp_turns(z * 32);
    let lo = tail_of(ipart, e);
    e.w.saturating_mul(2).saturating_add(lo)
}

// Half of a, to the nearest whole number, halves up.
fn half_up(a: i64) -> i64
    requires { pos 0 ≤ℤ a }
    ensures { result ≡ shr (a +ℤ pos 1) 1 }
{
    ((a as u64 + 1) >> 1) as i64
}

// w / 2^(62 - ipart) to the nearest whole number.
fn rounded(w: i64, ipart: u32) -> i64
    requires { pos 0 ≤ℤ w }
    ensures value { result ≡ rounded w ipart }
    ensures near { pos 0 ≤ℤ result }
{
    if ipart < 62 {
        half_up(shr(w, 61 - ipart))
    } else {
        w
    }
}

// The power of two of the logarithm x in Q57, in whole numbers: 0 below x = 0, and i64::MAX from 63
// on.
pub fn bexp64(x: i64) -> i64
    ensures value { result ≡ bexp64 x }
    ensures near { pos 0 ≤ℤ result }
    ensures below { x <ℤ pos 0 → result ≡ pos 0 }
    ensures above { pos (63 * 2 ^ 57) ≤ℤ x → result ≡ pos (2 ^ 63 - 1) }
    ensures exact { ExactPower x result }
    ensures band { PowerBand x result }
    ensures positive { pos 0 ≤ℤ x → pos 1 ≤ℤ result }
{
    let ipart = shr(x, 57);
    if ipart < 0 {
        return 0;
    }
    if ipart >= 63 {
        return i64::MAX;
    }
    rounded(scaled(ipart as u32, x - ipart * (1 << 57)), ipart as u32)
}
