// The binary logarithm in Q57 of a whole number, by 65 turns. It rests on the tables and the parts of
// a turn.
ghost use Rattle.std.specs.Prelude.{◌≡◌, ℕ, ◌+◌, ◌-◌, ◌*◌, ◌^◌, ◌<◌, ◌≤◌, ℤ, pos, negsuc, ◌+ℤ◌, ◌≤ℤ◌, ◌<ℤ◌, Decides, bit_and};
ghost use Rattle.logexp.specs.Cordic.{step, shr};
ghost use Rattle.logexp.specs.LogExp.{log_turn, log_turns, moved, blog_parts, blog64};
ghost use Rattle.logexp.specs.Laws.{ExactLog, LogBand};
ghost use Rattle.logexp.specs.Bounds.{LogIn};

use crate::tables::{atanh_at, step_of};
use crate::turns::{along, shr};

// The hyperbolic cosine x and sine y in Q61, and the logarithm found so far, z in Q61.
#[derive(Clone, Copy)]
struct Log {
    x: i64,
    y: i64,
    z: i64,
}

// One turn brings y nearer to 0 and adds the turn's constant to z, with the sign of y.
fn log_turn(k: usize, l: Log) -> Log
    requires { (k < 65) × (LogIn k l) }
    ensures { result ≡ log_turn (step k) l }
{
    let i = step_of(k);
    let x = l.x - along(l.y, shr(l.y, i + 1));
    let y = l.y - along(l.y, shr(l.x, i + 1));
    let z = l.z + along(l.y, shr(atanh_at(i), i));
    Log { x, y, z }
}

// The logarithm in Q61 of w / 2^61: twice the area tangent of (w - 1) / (w + 1).
fn log_turns(w: u64) -> i64
    requires { (2 ^ 61 ≤ w) × (w < 2 ^ 62) }
    ensures { result ≡ (log_turns w 65).z }
{
    let mut l = Log {
        x: w as i64 + (1 << 61),
        y: w as i64 - (1 << 61),
        z: 0,
    };
    for k in 0..65 {
        l = log_turn(k, l);
    }
    l.z
}

// n with its top digit moved to the place of 2^61; a number of 63 digits loses its last one. That the result lies from
// 2^61 to 2^62 stays in clauses: a type for it would be taken apart at each turn.
fn moved(ipart: u32, n: u64) -> u64
    requires { (ipart ≤ 62) × ((2 ^ ipart ≤ n) × (n < 2 ^ (ipart + 1))) }
    ensures value { result ≡ moved ipart n }
    ensures least { 2 ^ 61 ≤ result }
    ensures most { result < 2 ^ 62 }
{
    if ipart > 61 {
        n >> (ipart - 61)
    } else {
        n << (61 - ipart)
    }
}

// Whether w shares no digit with the number before it, as only the powers of two do.
fn is_power(w: u64) -> bool
    requires { 0 < w }
    ensures { Decides result (bit_and w (w - 1) ≡ 0) }
{
    w & (w - 1) == 0
}

// z from Q61 to Q57, to the nearest, halves up.
fn to_q57(z: i64) -> i64
    requires { z <ℤ pos (2 ^ 62) }
    ensures { result ≡ shr (z +ℤ pos 8) 4 }
{
    shr(z + 8, 4)
}

// The logarithm of w * 2^(ipart - 61): exact at a power of two, else rounded from Q61 to
// Q57.
fn blog_parts(ipart: u32, w: u64) -> i64
    requires { (ipart ≤ 62) × ((2 ^ 61 ≤ w) × (w < 2 ^ 62)) }
    ensures { result ≡ blog_parts ipart w }
{
    let whole = ipart as i64 * (1 << 57);
    if is_power(w) {
        whole
    } else {
        whole + to_q57(log_turns(w))
    }
}

// The binary logarithm of n in Q57, or -1 where n has none.
pub fn blog64(n: i64) -> i64
    ensures value { result ≡ blog64 n }
    ensures none { n <ℤ pos 1 → result ≡ negsuc 0 }
    ensures exact { ExactLog n result }
    ensures band { LogBand n result }
    ensures positive { pos 1 ≤ℤ n → pos 0 ≤ℤ result }
    ensures least { (m : ℕ) → pos (2 ^ m) ≤ℤ n → pos (m * 2 ^ 57) ≤ℤ (result +ℤ pos (2 ^ 54)) }
    ensures most { (m : ℕ) → n <ℤ pos (2 ^ m) → result <ℤ pos ((m + 1) * 2 ^ 57) }
{
    if n <= 0 {
        return -1;
    }
    let n = n as u64;
    let ipart = 63 - n.leading_zeros();
    blog_parts(ipart, moved(ipart, n))
}
