// The curve model: bits fall as a power of the quantizer, by a scale that follows what frames used. Its four filters
// lie in one table, and a lesson changes one of them.
ghost use Rattle.std.specs.Prelude.{◌≡◌, ℕ, ◌+◌, ◌-◌, ◌*◌, ◌^◌, ◌<◌, ◌≤◌, Bool, length, ℤ, pos, ◌+ℤ◌, IfOk};
ghost use Rattle.model.specs.Curves.{curve_meaning, guessed, fresh_filters, curve_of, curve_made};
ghost use Rattle.model.specs.Laws.{StaysBounded};
ghost use Rattle.std.proofs.Common.{rules};

use crate::bit_model::BitModel;
use crate::filter::{Filter, Guess};
use crate::lesson::Lesson;
use crate::room::Room;
use setup::{LawfulSettings, Refusal, Settings};

// The first delay of the follower of subtype 0, and of the others.
const INTRA_DELAY: u32 = 4;

const INTER_DELAY: u32 = 10;

// rav1e's model: a filter for each subtype, the log of the pixels in Q57, and the longest delay of the filters
// of the inter subtypes. The four filters lie in one table by a rule.
#[derive(Drop)]
pub struct Curve {
    filters: [Filter; 4],
    log_npixels: i64,
    inter_delay_target: u32,
}

// A guess by n: one below low, one below high, one from there on.
fn guess(n: u64, low: u64, high: u64, few: Guess, some: Guess, many: Guess) -> Guess
    ensures { result ≡ guessed n low high few some many }
{
    if n < low {
        few
    } else if n < high {
        some
    } else {
        many
    }
}

// The four filters before any lesson, for n pixels to a bit.
fn fresh_filters(n: u64) -> [Filter; 4]
    ensures { result ≡ fresh_filters n }
{
    [
        Filter::new(
            guess(
                n,
                1,
                4,
                Guess::of(48, 36),
                Guess::of(61, 55),
                Guess::of(77, 129),
            ),
            INTRA_DELAY,
        ),
        Filter::new(
            guess(
                n,
                2,
                139,
                Guess::of(69, 32),
                Guess::of(104, 84),
                Guess::of(83, 19),
            ),
            INTER_DELAY,
        ),
        Filter::new(
            guess(
                n,
                2,
                92,
                Guess::of(84, 30),
                Guess::of(120, 68),
                Guess::of(68, 4),
            ),
            INTER_DELAY,
        ),
        Filter::new(
            guess(
                n,
                2,
                126,
                Guess::of(87, 27),
                Guess::of(139, 84),
                Guess::of(61, 1),
            ),
            INTER_DELAY,
        ),
    ]
}

impl Curve {
    // The curve of accepted settings.
    fn of(settings: &LawfulSettings) -> Curve
        ensures value { result ≡ curve_of settings.now.settings }
        ensures target { result.inter_delay_target ≤ 512 }
    {
        let npixels = settings.pixels();
        Curve {
            filters: fresh_filters(npixels / settings.credit()),
            log_npixels: logexp::blog64(npixels as i64),
            inter_delay_target: settings.units() >> 1,
        }
    }

    // The curve that the settings ask for, or the first of the eight questions that is answered by no. Whatever it
    // is taught, its exponents stay at 1 or more, the delay of its I filter at 4 and the others' within 10 to 512.
    pub fn new(settings: &Settings) -> Result<Curve, Refusal>
        ensures made { result ≡ curve_made settings.now }
        ensures bounded { IfOk result StaysBounded }
    {
        settings.accept()?;
        Ok(Curve::of(&settings.lawful()))
    }
}

impl BitModel for Curve {
    ghost meaning = { curve_meaning };

    ghost laws = { Prim.search rules };

    // The rules speak of subtypes above 3, and these tests are put as they are; they count no index.
    fn predict(&self, subtype: u8, log_q: i64) -> i64 {
        if subtype > 3 {
            return 0;
        }
        self.filters[subtype as usize].predict(self.log_npixels, log_q)
    }

    fn trim(&self, subtype: u8, log_q: i64, room: Room) -> i64 {
        if subtype > 3 || room.limit < 1 {
            return log_q;
        }
        self.filters[subtype as usize].trim(self.log_npixels, log_q, room)
    }

    fn learn(&mut self, lesson: Lesson) {
        if lesson.subtype > 3 || lesson.bits == 0 {
            return;
        }
        self.filters[lesson.subtype as usize].learn(
            self.log_npixels,
            self.inter_delay_target,
            lesson,
        );
    }
}
