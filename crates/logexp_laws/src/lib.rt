// The logarithm and the exponential undo each other on the numbers that a quantizer table holds. This
// crate has no code of its own to offer: its function's contract is the law, which takes some seconds to
// compute.
#![tactic(auto)]

ghost use Rattle.std.specs.Prelude.{◌≡◌, ℕ, ◌<◌, ◌≤◌};
ghost use Rattle.logexp_laws.specs.Undone.{Undone, Rising};

// The first number that the computed test leaves out.
const COVERED: u16 = 8192;

// The number itself, for the law to speak of.
fn covered() -> u16
    ensures { result ≡ 8192 }
{
    COVERED
}

// The numbers from 1 up to the one that it answers, which is not among them, come back from their
// logarithms, and their logarithms rise.
pub fn numbers_covered() -> u16
    ensures count { result ≡ 8192 }
    ensures undone { Undone result }
    ensures rising { Rising result }
{
    covered()
}
