// The scale of a plane as a float.
ghost use Rattle.std.specs.Prelude.{◌≡◌, false};
ghost use Rattle.std.specs.Float.Ieee.Exact.{HasValue};
ghost use Rattle.quantize.specs.Scale.{kept, quotient};

// n / 65,536, with n kept within 0 and 2^53, so that the quotient is exact.
pub fn plane_scale(n: i64) -> f64
    ensures value { result ≡ quotient (kept n) }
    ensures exact { HasValue result false (kept n) 65536 }
{
    let m = n.clamp(0, 1 << 53);
    m as f64 / 65536.0
}
