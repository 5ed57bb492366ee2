// Choosing a quantizer.
ghost use Rattle.std.specs.Prelude.{◌≡◌, ℕ, ◌≤◌, ℤ, IfOk};
ghost use Rattle.search.specs.Predict.{forecast};
ghost use Rattle.search.specs.Hunt.{Hits};
ghost use Rattle.controller.specs.Soundness.{Sound};
ghost use Rattle.controller.specs.After.{any_out, next_number, chosen_core, told};
ghost use Rattle.controller.specs.Choosing.{ahead, bottom, top, total, found_for, aimed, decision, choose_question, choose_after, room_of, issued, Decides};

use crate::controller::Controller;
use crate::state::{Core, Frame};
use crate::ticket::{Choice, Ticket};
use aim::{Aim, highest_of, is_set, near_previous, rate_total};
use calls::{Decision, Refusal};
use flat::Subtype;
use model::{BitModel, Room};
use outlook::{Counts, Outlook};
use quantize::QuantizerParameters;
use search::{Ends, Found, search};

impl Core {
    // Whether a ticket is out.
    pub(crate) fn any_out(&self) -> bool
        ensures { result ≡ any_out self.now.out }
    {
        self.out.is_some()
    }

    // Counts one more choice, whose ticket is out for a frame: the number of that ticket.
    fn issue(&mut self, frame: Frame) -> u64
        requires { Sound self.old }
        ensures answer { result ≡ next_number self.old }
        ensures after { self.new ≡ chosen_core self.old frame }
        ensures sound { Sound self.new }
    {
        let number = self.choices.wrapping_add(1);
        self.choices = number;
        self.out = Some(frame);
        number
    }

    // The room that the next frame has in the reservoir.
    fn room(&self) -> Room
        ensures { result ≡ room_of self.now }
    {
        let r = self.reservoir;
        Room {
            fullness: r.fullness,
            credit: r.credit,
            limit: r.limit,
            highest: is_set(self.profile.highest),
        }
    }

    // The bits that the frames ahead have to share.
    fn total(&self, counts: &Counts) -> i64
        ensures { result ≡ total self.now counts.now }
    {
        let r = self.reservoir;
        rate_total(
            r.fullness,
            r.target,
            r.credit,
            self.rate_bias,
            self.coded,
            counts,
        )
    }
}

impl<M: BitModel> Controller<M> {
    // The base that the search finds for a total.
    fn look(&self, counts: &Counts, total: i64) -> Found
        ensures exact { result ≡ found_for M.meaning self.now.core self.now.model counts.now total }
        ensures few { result.tries ≤ 60 }
        ensures hits { Hits (forecast M.meaning self.now.model counts.now.kinds) total (bottom self.now.core) (top self.now.core) result.base }
    {
        let p = self.core.profile;
        let ends = Ends::between(p.lowest, highest_of(p.highest), p.depth);
        search(&self.model, counts, total, ends)
    }

    // Base and log quantizer of a frame from the base found: near the previous one, trimmed by the model, and between the
    // highest and the lowest index.
    fn aim(&self, subtype: Subtype, previous: Option<i64>, found: i64) -> Aim
        ensures { result ≡ aimed M.meaning self.now.core self.now.model subtype previous found }
    {
        let p = self.core.profile;
        let log_base_q = near_previous(previous, found);
        let log_q = self.model.trim(
            u8::from(subtype),
            subtype.log_q(log_base_q),
            self.core.room(),
        );
        let below = Aim { log_base_q, log_q }.under_highest(p.highest, p.depth, subtype);
        below.over_lowest(p.lowest, p.depth, subtype)
    }

    // The figures of a choice.
    fn decide(
        &self,
        subtype: Subtype,
        counts: &Counts,
        previous: Option<i64>,
        mean: i64,
    ) -> Decision
        ensures exact { result ≡ decision M.meaning self.now.core self.now.model counts.now subtype previous mean }
        ensures decides { Decides (forecast M.meaning self.now.model counts.now.kinds) self.now.core result }
    {
        let p = self.core.profile;
        let total = self.core.total(counts);
        let found = self.look(counts, total);
        let aim = self.aim(subtype, previous, found.base);
        let intra = subtype == Subtype::I;
        let quantizer = QuantizerParameters::of(
            aim.log_base_q,
            aim.log_q,
            p.depth,
            p.sampling,
            intra,
            mean,
        );
        Decision {
            found: found.base,
            total,
            tries: found.tries,
            quantizer,
        }
    }

    // Chooses the quantizer of a frame of a subtype, from the frames ahead, the base of the previous frame, if there was
    // one, and the mean scale. Refused: a ticket is out (11), the subtype is not 0 to 3 (12). Accepted: the model stays,
    // and the ticket of the choice is out.
    pub fn choose<O: Outlook>(
        &mut self,
        subtype: u8,
        outlook: &O,
        previous: Option<i64>,
        log_isqrt_mean_scale: i64,
    ) -> Result<Choice, Refusal>
        ensures number { told result ≡ choose_question self.old.core subtype }
        ensures answer { result ≡ issued self.old.core (choose_after M.meaning self.old.core self.old.model (O.entries outlook.now) subtype previous log_isqrt_mean_scale).answer }
        ensures core { self.new.core ≡ (choose_after M.meaning self.old.core self.old.model (O.entries outlook.now) subtype previous log_isqrt_mean_scale).core }
        ensures model { self.new.model ≡ self.old.model }
        ensures decides { IfOk result (λ c. Decides (forecast M.meaning self.old.model (ahead self.old.core (O.entries outlook.now)).kinds) self.old.core c.decision) }
    {
        if self.core.any_out() {
            return Err(Refusal::TicketOut);
        }
        // `calls` knows no subtypes, so the refusal is named here.
        let Ok(kind) = Subtype::try_from(subtype) else {
            return Err(Refusal::NoSuchSubtype);
        };
        let counts = outlook.count(self.core.profile.delay);
        let decision = self.decide(kind, &counts, previous, log_isqrt_mean_scale);
        let number = self.core.issue(Frame {
            subtype: kind,
            log_q: decision.quantizer.log_target_q,
        });
        Ok(Choice {
            ticket: Ticket::numbered(number),
            decision,
        })
    }
}
