// The tangent, by straight lines between the 18 entries of a table.
ghost use Rattle.std.specs.Prelude.{◌≡◌, ℕ, ◌+◌, ◌-◌, ◌*◌, ◌/◌, ◌^◌, ◌<◌, ◌≤◌};
ghost use Rattle.bessel.specs.Tangent.{tan, tan_place, warped};

// The tangent of i eighteenths of a quarter turn, in Q12 (2^12 stands for 1).
const ROUGH_TAN_LOOKUP: [u16; 18] = [
    0, 358, 722, 1098, 1491, 1910, 2365, 2868, 3437, 4096, 4881, 5850, 7094, 8784, 11254, 15286,
    23230, 46817,
];

// The last entry that has another after it.
const LAST_PLACE: u64 = 16;

// An entry of the table.
fn rough_tan(i: u64) -> u64
    requires { i < 18 }
    ensures value { result ≡ tan i }
    ensures small { result < 2 ^ 16 }
{
    ROUGH_TAN_LOOKUP[i as usize] as u64
}

// How far the tangent rises from one entry to the next, whole.
fn slope(i: u64) -> u64
    requires { i < 17 }
    ensures value { result ≡ tan (i + 1) - tan i }
    ensures small { result < 2 ^ 16 }
{
    rough_tan(i + 1) - rough_tan(i)
}

// The straight line from t, d parts of 2^24 of a step further.
fn between(t: u64, slope: u64, d: u64) -> u64
    requires { (t < 2 ^ 16) × ((slope < 2 ^ 16) × (d < 2 ^ 38)) }
    ensures value { result ≡ (t * 2 ^ 32 + slope * 2 ^ 8 * d) / 2 ^ 32 }
    ensures small { result < 2 ^ 31 }
    ensures near { d ≤ 2 ^ 24 → result < 2 ^ 17 }
{
    (t * (1 << 32) + slope * (1 << 8) * d) >> 32
}

// The place of the entry at or below alpha half turns, alpha in Q24.
fn place(alpha: u64) -> u64
    requires { alpha < 2 ^ 32 }
    ensures { result ≡ tan_place alpha }
{
    ((alpha * 36) >> 24).min(LAST_PLACE)
}

// The tangent of alpha half turns, alpha in Q24 and the answer in Q12; the line before the last entry goes on
// past the table's end. The slope between two entries is kept whole. Below 2^17 for an alpha up to a quarter.
pub fn warp_alpha(alpha: u32) -> u64
    ensures value { result ≡ warped alpha }
    ensures near { alpha ≤ 2 ^ 22 → result < 2 ^ 17 }
{
    let alpha = alpha as u64;
    let i = place(alpha);
    between(rough_tan(i), slope(i), alpha * 36 - i * (1 << 24))
}
