// Recorded calls.
ghost use Rattle.std.specs.Prelude.{◌≡◌, ℕ};
ghost use Rattle.controller.specs.After.{next_number};
ghost use Rattle.controller.specs.Choosing.{choose_after};
ghost use Rattle.controller.specs.Reporting.{report_after, trial_after, show_after};
ghost use Rattle.controller.specs.Performing.{of_choose, of_trial, of_report, of_show, answer_to, core_after, model_after};

use crate::controller::Controller;
use crate::ticket::{Choice, Ticket};
use calls::{Answer, Call};
use model::BitModel;
use outlook::{NothingAhead, Outlook};

impl<M: BitModel> Controller<M> {
    // A recorded choice: its ticket stays out by its number alone.
    fn perform_choice<O: Outlook>(
        &mut self,
        outlook: &O,
        subtype: u8,
        previous: Option<i64>,
        log_isqrt_mean_scale: i64,
    ) -> Answer
        ensures answer { result ≡ of_choose (next_number self.old.core) (choose_after M.meaning self.old.core self.old.model (O.entries outlook.now) subtype previous log_isqrt_mean_scale).answer }
        ensures core { self.new.core ≡ (choose_after M.meaning self.old.core self.old.model (O.entries outlook.now) subtype previous log_isqrt_mean_scale).core }
        ensures model { self.new.model ≡ self.old.model }
    {
        match self.choose(subtype, outlook, previous, log_isqrt_mean_scale) {
            Ok(Choice { ticket, decision }) => {
                let number = ticket.number();
                ticket.spend();
                Answer::Chosen {
                    ticket: number,
                    decision,
                }
            }
            Err(refusal) => Answer::Refused(refusal),
        }
    }

    // A recorded trial, with a ticket of that number.
    fn perform_trial(&mut self, number: u64, bits: u32) -> Answer
        ensures answer { result ≡ of_trial (trial_after M.meaning self.old.core self.old.model number bits).answer }
        ensures core { self.new.core ≡ (trial_after M.meaning self.old.core self.old.model number bits).core }
        ensures model { self.new.model ≡ (trial_after M.meaning self.old.core self.old.model number bits).model }
    {
        match self.trial(Ticket::numbered(number), bits) {
            Ok(_) => Answer::Tried,
            Err(unspent) => Answer::Refused(unspent.spend()),
        }
    }

    // A recorded report, with a ticket of that number.
    fn perform_report(&mut self, number: u64, bits: u32, shown: bool, droppable: bool) -> Answer
        ensures answer { result ≡ of_report (report_after M.meaning self.old.core self.old.model number bits shown droppable).answer }
        ensures core { self.new.core ≡ (report_after M.meaning self.old.core self.old.model number bits shown droppable).core }
        ensures model { self.new.model ≡ (report_after M.meaning self.old.core self.old.model number bits shown droppable).model }
    {
        match self.report(Ticket::numbered(number), bits, shown, droppable) {
            Ok(reported) => Answer::Charged(reported),
            Err(unspent) => Answer::Refused(unspent.spend()),
        }
    }

    // A recorded show.
    fn perform_show(&mut self) -> Answer
        ensures answer { result ≡ of_show (show_after self.old.core self.old.model).answer }
        ensures core { self.new.core ≡ (show_after self.old.core self.old.model).core }
        ensures model { self.new.model ≡ self.old.model }
    {
        match self.show() {
            Ok(_) => Answer::Shown,
            Err(refusal) => Answer::Refused(refusal),
        }
    }

    // One recorded call, by the call itself: a ticket stands there by its number, and an outlook by its place in
    // `outlooks`, where a place outside stands for no entries.
    pub fn perform<O: Outlook>(&mut self, outlooks: &[O], call: Call) -> Answer
        ensures answer { result ≡ answer_to M.meaning O.entries outlooks.now self.old.core self.old.model call }
        ensures core { self.new.core ≡ core_after M.meaning O.entries outlooks.now self.old.core self.old.model call }
        ensures model { self.new.model ≡ model_after M.meaning O.entries outlooks.now self.old.core self.old.model call }
    {
        match call {
            Call::Choose {
                subtype,
                outlook,
                previous,
                log_isqrt_mean_scale,
            } => match outlooks.get(outlook) {
                Some(ahead) => self.perform_choice(ahead, subtype, previous, log_isqrt_mean_scale),
                None => {
                    self.perform_choice(&NothingAhead, subtype, previous, log_isqrt_mean_scale)
                }
            },
            Call::Trial { ticket, bits } => self.perform_trial(ticket, bits),
            Call::Report {
                ticket,
                bits,
                shown,
                droppable,
            } => self.perform_report(ticket, bits, shown, droppable),
            Call::Withdraw { ticket } => {
                self.withdraw(Ticket::numbered(ticket));
                Answer::Withdrawn
            }
            Call::Show => self.perform_show(),
            Call::Status => Answer::Told(self.status()),
        }
    }
}
