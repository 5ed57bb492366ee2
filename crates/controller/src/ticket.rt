// Tickets: the leave to code one frame.
ghost use Rattle.std.specs.Prelude.{◌≡◌, true, false};

use calls::{Decision, Refusal};

// The ticket of one choice, with the number of that choice. It must end in a trial, a report or a withdrawal: letting it
// go otherwise is refused by the check. The mark is for that alone: only a spent ticket may be dropped.
pub struct Ticket {
    number: u64,
    spent: bool,
}

impl Drop for Ticket {
    fn drop(self)
        requires { self.spent ≡ true }
    {
        let Ticket {
            number: _,
            spent: _,
        } = self;
    }
}

impl Ticket {
    // The ticket with a number, not spent yet.
    pub(crate) fn numbered(number: u64) -> Ticket
        ensures { result ≡ record { number = number; spent = false } }
    {
        Ticket {
            number,
            spent: false,
        }
    }

    // The number of its choice.
    pub fn number(&self) -> u64
        ensures { result ≡ self.now.number }
    {
        self.number
    }

    // Ends the ticket.
    pub(crate) fn spend(mut self) {
        self.spent = true;
    }

    // The ticket as it comes back from a call that was refused.
    pub(crate) fn back(self, refusal: Refusal) -> Unspent
        ensures { result ≡ record { refusal = refusal; ticket = self } }
    {
        Unspent {
            refusal,
            ticket: self,
        }
    }
}

// An accepted choice: its ticket, and its figures.
#[derive(Drop)]
pub struct Choice {
    pub ticket: Ticket,
    pub decision: Decision,
}

// A refused trial or report: why, and the ticket that was handed in.
#[derive(Drop)]
pub struct Unspent {
    pub refusal: Refusal,
    pub ticket: Ticket,
}

impl Unspent {
    // Ends the ticket: why the call was refused.
    pub(crate) fn spend(self) -> Refusal
        ensures { result ≡ self.refusal }
    {
        let Unspent { refusal, ticket } = self;
        ticket.spend();
        refusal
    }
}
