// Trials, reports, shows, withdrawals and the status.
ghost use Rattle.std.specs.Prelude.{◌≡◌, ℕ, ◌≤◌};
ghost use Rattle.calls.specs.declared.refusal.Refusal.{Refusal as Reason};
ghost use Rattle.controller.specs.After.{any_out, frame_of, has_room, cleared_core, handed, told, told_back};
ghost use Rattle.controller.specs.Reporting.{reports_of, lesson_of, taught, report_question, report_after, trial_question, trial_after, show_question, show_after, withdrawn_core, status_of};

use crate::controller::Controller;
use crate::state::{Core, Frame};
use crate::ticket::{Ticket, Unspent};
use calls::{Refusal, Reported, Status};
use flat::Subtype;
use model::{BitModel, Lesson};

// How many reports and shows are accepted at most.
const FRAMES_MOST: u32 = 1 << 30;

impl Core {
    // The frame of the ticket that is out, if that ticket has this number.
    fn frame_of(&self, number: u64) -> Option<Frame>
        ensures { result ≡ frame_of self.now number }
    {
        if number == self.choices {
            self.out
        } else {
            None
        }
    }

    // Whether one more report or show is accepted.
    fn has_room(&self) -> bool
        ensures { result ≡ has_room self.now }
    {
        self.accepted < FRAMES_MOST
    }

    // The accepted reports of a subtype.
    fn reports_of(&self, subtype: Subtype) -> u32
        ensures { result ≡ reports_of self.now subtype }
    {
        self.reports[u8::from(subtype) as usize]
    }

    // What the bits of a frame teach, in a trial or not.
    fn lesson(&self, frame: Frame, bits: u32, trial: bool) -> Lesson
        ensures { result ≡ lesson_of self.now frame bits trial }
    {
        Lesson {
            subtype: u8::from(frame.subtype),
            bits,
            log_q: frame.log_q,
            trial,
            reports: self.reports_of(frame.subtype),
        }
    }
}

impl<M: BitModel> Controller<M> {
    // Teaches the model a frame that used bits; bits of 0 teach nothing.
    fn teach(&mut self, frame: Frame, bits: u32, trial: bool)
        ensures core { self.new.core ≡ self.old.core }
        ensures model { self.new.model ≡ taught M.meaning self.old.core self.old.model frame bits trial }
    {
        if bits > 0 {
            self.model.learn(self.core.lesson(frame, bits, trial));
        }
    }

    // Takes the bits of a frame that was coded on trial, and only teaches the model. Refused, and the ticket comes back:
    // this is not the ticket that is out (21), the subtype has an accepted report (23), no bits (24).
    pub fn trial(&mut self, ticket: Ticket, bits: u32) -> Result<(), Unspent>
        ensures number { told_back result ≡ trial_question self.old.core ticket.number bits }
        ensures answer { result ≡ handed ticket (trial_after M.meaning self.old.core self.old.model ticket.number bits).answer }
        ensures core { self.new.core ≡ (trial_after M.meaning self.old.core self.old.model ticket.number bits).core }
        ensures model { self.new.model ≡ (trial_after M.meaning self.old.core self.old.model ticket.number bits).model }
    {
        let Some(frame) = self.core.frame_of(ticket.number()) else {
            return Err(ticket.back(Refusal::NotThatTicket));
        };
        if self.core.reports_of(frame.subtype) != 0 {
            return Err(ticket.back(Refusal::NoTrialDue));
        }
        if bits == 0 {
            return Err(ticket.back(Refusal::NoBits));
        }
        ticket.spend();
        self.teach(frame, bits, true);
        self.core.out = None;
        Ok(())
    }

    // Takes the bits of a frame that was coded: the model predicts and then learns, the frame may be dropped, the
    // reservoir is charged, credited if the frame is shown, and capped, and the bias gains predicted less charged.
    // Refused, and the ticket comes back: this is not the ticket that is out (21), 2^30 reports and shows have been
    // accepted (13). Bits and marks are operands of their own, as the rules name them one by one: a struct of the three
    // would be taken apart again in each definition, and so be no plainer.
    pub fn report(
        &mut self,
        ticket: Ticket,
        bits: u32,
        shown: bool,
        droppable: bool,
    ) -> Result<Reported, Unspent>
        ensures number { told_back result ≡ report_question self.old.core ticket.number }
        ensures answer { result ≡ handed ticket (report_after M.meaning self.old.core self.old.model ticket.number bits shown droppable).answer }
        ensures core { self.new.core ≡ (report_after M.meaning self.old.core self.old.model ticket.number bits shown droppable).core }
        ensures model { self.new.model ≡ (report_after M.meaning self.old.core self.old.model ticket.number bits shown droppable).model }
    {
        let Some(frame) = self.core.frame_of(ticket.number()) else {
            return Err(ticket.back(Refusal::NotThatTicket));
        };
        if !self.core.has_room() {
            return Err(ticket.back(Refusal::NoMoreFrames));
        }
        ticket.spend();
        let predicted = self.model.predict(u8::from(frame.subtype), frame.log_q);
        self.teach(frame, bits, false);
        Ok(
            self.core
                .report(frame.subtype, predicted, bits, shown, droppable),
        )
    }

    // The show of an existing frame: it is charged 24 bits, and brings a credit. Refused: a ticket is out (11), 2^30
    // reports and shows have been accepted (13).
    pub fn show(&mut self) -> Result<(), Refusal>
        ensures number { told result ≡ show_question self.old.core }
        ensures answer { result ≡ (show_after self.old.core self.old.model).answer }
        ensures core { self.new.core ≡ (show_after self.old.core self.old.model).core }
        ensures model { self.new.model ≡ self.old.model }
    {
        if self.core.any_out() {
            return Err(Refusal::TicketOut);
        }
        if !self.core.has_room() {
            return Err(Refusal::NoMoreFrames);
        }
        self.core.show();
        Ok(())
    }

    // Ends a ticket whose frame is not coded. Every ticket is taken; only the one that is out clears the mark.
    pub fn withdraw(&mut self, ticket: Ticket)
        ensures core { self.new.core ≡ withdrawn_core self.old.core ticket.number }
        ensures model { self.new.model ≡ self.old.model }
    {
        if self.core.frame_of(ticket.number()).is_some() {
            self.core.out = None;
        }
        ticket.spend();
    }

    // What the controller holds. Never refused.
    pub fn status(&self) -> Status
        ensures { result ≡ status_of self.now.core }
    {
        let r = self.core.reservoir;
        Status {
            fullness: r.fullness,
            credit: r.credit,
            limit: r.limit,
            rate_bias: self.core.rate_bias,
            coded: self.core.coded,
            out: self.core.any_out(),
        }
    }
}
