// The bits that the frames ahead have to share.
ghost use Rattle.std.specs.Prelude.{◌≡◌, ℕ, ◌+◌, ℤ, pos, ◌≤ℤ◌, int_div};
ghost use Rattle.logexp.specs.Held.{◌⊕◌, ◌⊖◌, ◌⊗◌};
ghost use Rattle.aim.specs.Totals.{bias_share, rate_total};

use outlook::Counts;

// How many frames the bias is spread over beside those that were coded.
const BIAS_FRAMES: i64 = 100;

// A quotient that drops its fraction towards zero.
fn divided(bias: i64, by: i64) -> i64
    requires { pos 1 ≤ℤ by }
    ensures { result ≡ int_div bias by }
{
    bias / by
}

// What the frames ahead make good of the bias.
fn bias_share(rate_bias: i64, coded: u32, frames: u32) -> i64
    ensures { result ≡ bias_share rate_bias coded frames }
{
    divided(rate_bias, coded as i64 + BIAS_FRAMES).saturating_mul(frames as i64)
}

// The credits of the shown units ahead.
fn credits_of(shown: u32, credit: i64) -> i64
    ensures { result ≡ pos shown ⊗ credit }
{
    (shown as i64).saturating_mul(credit)
}

// What the reservoir has above its target, with the share of the bias and the credits.
fn summed(fullness: i64, target: i64, share: i64, credits: i64) -> i64
    ensures { result ≡ fullness ⊖ target ⊕ share ⊕ credits }
{
    fullness
        .saturating_sub(target)
        .saturating_add(share)
        .saturating_add(credits)
}

// The bits that the frames ahead have to share: fullness less target, the frames' share of the rate bias, and the
// credits of the shown units ahead.
pub fn rate_total(
    fullness: i64,
    target: i64,
    credit: i64,
    rate_bias: i64,
    coded: u32,
    ahead: &Counts,
) -> i64
    ensures { result ≡ rate_total fullness target credit rate_bias coded ahead.now }
{
    let share = bias_share(rate_bias, coded, ahead.frames);
    summed(fullness, target, share, credits_of(ahead.shown, credit))
}
