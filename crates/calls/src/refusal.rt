// Why a call is refused.
ghost use Rattle.std.specs.Prelude.{◌≡◌};
ghost use Rattle.calls.specs.Numbers.{number};

// The question that was answered by no.
#[derive(Clone, Copy, PartialEq, Eq, Debug)]
pub enum Refusal {
    // A ticket is out.
    TicketOut,
    // The subtype is not 0, 1, 2 or 3.
    NoSuchSubtype,
    // 2^30 reports and shows have been accepted.
    NoMoreFrames,
    // This is not the ticket that is out.
    NotThatTicket,
    // The subtype has an accepted report, so that no trial is due.
    NoTrialDue,
    // A trial of no bits.
    NoBits,
}

// The number that stands for the refusal in every interface.
impl From<Refusal> for u8 {
    ghost from_gives = { λ refusal n. n ≡ number refusal };

    fn from(refusal: Refusal) -> u8 {
        match refusal {
            Refusal::TicketOut => 11,
            Refusal::NoSuchSubtype => 12,
            Refusal::NoMoreFrames => 13,
            Refusal::NotThatTicket => 21,
            Refusal::NoTrialDue => 23,
            Refusal::NoBits => 24,
        }
    }
}
