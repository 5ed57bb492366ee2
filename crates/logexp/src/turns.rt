// What a turn of either function is made of: a number taken with the sign of another, a shift that
// rounds down, and the exponential's remainder after a turn.
ghost use Rattle.std.specs.Prelude.{◌≡◌, ◌<◌, ◌≤◌, neg_ℤ, FitsSigned, unsigned_abs};
ghost use Rattle.std.specs.Int.{w64};
ghost use Rattle.logexp.specs.Cordic.{along, shr};
ghost use Rattle.logexp.specs.LogExp.{turned};
ghost use Rattle.logexp.specs.Bounds.{z_bound};

use crate::tables::{atanh_at, step_of};

// a, or -a where s is negative.
pub fn along(s: i64, a: i64) -> i64
    requires { FitsSigned w64 (neg_ℤ a) }
    ensures { result ≡ along s a }
{
    if s < 0 { -a } else { a }
}

// a divided by 2^by, rounded down.
pub fn shr(a: i64, by: u32) -> i64
    requires { by < 64 }
    ensures { result ≡ shr a by }
{
    a >> by
}

// The remainder z after turn k: nearer to 0 by the turn's constant, and doubled unless the same
// step comes again.
pub fn turned(k: usize, z: i64) -> i64
    requires { (k < 64) × (unsigned_abs z ≤ z_bound k) }
    ensures { result ≡ turned k z }
{
    let i = step_of(k);
    let left = z - along(z, atanh_at(i));
    if step_of(k + 1) == i { left } else { left * 2 }
}
