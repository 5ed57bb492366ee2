// One subtype's scale: what it predicts, how it learns and how it trims. It rests on the follower of `bessel` and
// on the limits of the module `trim`.
ghost use Rattle.std.specs.Prelude.{◌≡◌, ℕ, ◌+◌, ◌-◌, ◌*◌, ◌/◌, ◌^◌, ◌<◌, ◌≤◌, max, Bool, ℤ, pos, ◌≤ℤ◌};
ghost use Rattle.std.specs.Int.{int_min};
ghost use Rattle.logexp.specs.LogExp.{blog64};
ghost use Rattle.model.specs.Scales.{q24, q57, exponent, powered, power, filter_count, scale_of, begun, lengthens, lengthened, followed, filter_next, first_scale, fresh_filter};
ghost use Rattle.model.specs.Trims.{scaled_pixels, filter_trim};

use crate::lesson::Lesson;
use crate::room::Room;
use crate::trim::{Exponent, Margin, Scaled};
use bessel::IIRBessel2;

// A subtype's follower of log scales in Q24, its log scale in Q57, its exponent in Q6 and its follower's delay.
#[derive(Clone, Copy)]
pub struct Filter {
    follower: IIRBessel2,
    log_scale: i64,
    exp: u8,
    delay: u32,
}

// What a filter is taken to be before any lesson: its exponent in Q6, and its first scale in eighths.
#[derive(Clone, Copy)]
pub(crate) struct Guess {
    exp: u8,
    eighths: u8,
}

impl Guess {
    pub(crate) fn of(exp: u8, eighths: u8) -> Guess
        ensures { result ≡ record { exp = exp; eighths = eighths } }
    {
        Guess { exp, eighths }
    }
}

// The greatest log scale, in Q57.
const SCALE_MOST: i64 = 16 << 57;

// First scales are in eighths.
const QSCALE: i64 = 3 << 57;

// From Q57 to the nearest in Q24.
fn q57_to_q24(v: i64) -> i32
    ensures { result ≡ q24 v }
{
    (((v >> 32) + 1) >> 1) as i32
}

// From Q24 to Q57, held.
fn q24_to_q57(v: i32) -> i64
    ensures { result ≡ q57 v }
{
    (v as i64).saturating_mul(1 << 33)
}

// The log scale that would have predicted the bits, from the logs of the pixels and of the quantizer's power.
fn scale_of(log_npixels: i64, bits: u32, power: i64) -> i64
    ensures { result ≡ scale_of log_npixels bits power }
{
    logexp::blog64(bits as i64)
        .saturating_sub(log_npixels)
        .saturating_add(power)
        .min(SCALE_MOST)
}

// The log of n eighths.
fn first_scale(n: u8) -> i64
    ensures { result ≡ first_scale n }
{
    logexp::blog64(n as i64).saturating_sub(QSCALE)
}

impl Filter {
    // A filter that has learnt nothing yet.
    pub(crate) fn new(guess: Guess, delay: u32) -> Filter
        ensures { result ≡ fresh_filter guess delay }
    {
        let log_scale = first_scale(guess.eighths);
        Filter {
            follower: IIRBessel2::new(delay, q57_to_q24(log_scale)),
            log_scale,
            exp: guess.exp,
            delay,
        }
    }

    // The exponent, at least 1.
    fn exponent(&self) -> Exponent
        ensures { result.value ≡ exponent self.now }
    {
        Exponent::of(self.exp)
    }

    // The log of the quantizer's power.
    fn power(&self, log_q: i64) -> i64
        ensures { result ≡ power self.now log_q }
    {
        self.exponent().powered(log_q)
    }

    // The predicted bits at a log quantizer.
    pub(crate) fn predict(&self, log_npixels: i64, log_q: i64) -> i64
        ensures { result ≡ pos (filter_count self.now log_npixels log_q) }
    {
        logexp::bexp64(
            self.log_scale
                .saturating_add(log_npixels)
                .saturating_sub(self.power(log_q)),
        )
    }

    // A first lesson or a trial: takes the scale that was seen for its own and for all of the follower.
    fn begin(&mut self, scale: i64)
        ensures { self.new ≡ begun self.old scale }
    {
        self.follower.restart(q57_to_q24(scale));
        self.log_scale = scale;
    }

    // Whether a later lesson first lengthens the follower's delay.
    fn lengthens(&self, target: u32, lesson: Lesson) -> bool
        ensures { result ≡ lengthens self.now target lesson }
    {
        lesson.subtype > 0 && self.delay < target && self.delay <= lesson.reports
    }

    // Lengthens the delay by 1, where it is to be.
    fn lengthen(&mut self, target: u32, lesson: Lesson)
        ensures { self.new ≡ lengthened self.old target lesson }
    {
        if self.lengthens(target, lesson) {
            self.delay += 1;
            self.follower.reinit(self.delay);
        }
    }

    // Lets the follower take the scale that was seen, and takes its output for the scale.
    fn follow(&mut self, x: i32)
        ensures { self.new ≡ followed self.old x }
    {
        self.log_scale = q24_to_q57(self.follower.update(x));
    }

    // Learns from what a frame used.
    pub(crate) fn learn(&mut self, log_npixels: i64, target: u32, lesson: Lesson)
        ensures { self.new ≡ filter_next self.old log_npixels target lesson }
    {
        let scale = scale_of(log_npixels, lesson.bits, self.power(lesson.log_q));
        if lesson.trial || lesson.reports == 0 {
            self.begin(scale);
        } else {
            self.lengthen(target, lesson);
            self.follow(q57_to_q24(scale));
        }
    }

    // The log of the follower's scale times the pixels.
    fn scaled_pixels(&self, log_npixels: i64) -> i64
        ensures { result ≡ scaled_pixels self.now log_npixels }
    {
        q24_to_q57(self.follower.last()).saturating_add(log_npixels)
    }

    // The log quantizer after the soft limit and, where no highest index is set, the hard limit.
    pub(crate) fn trim(&self, log_npixels: i64, log_q: i64, room: Room) -> i64
        requires { pos 1 ≤ℤ room.limit }
        ensures { result ≡ filter_trim self.now log_npixels log_q room }
    {
        let scaled = Scaled {
            exp: self.exponent(),
            pixels: self.scaled_pixels(log_npixels),
        };
        let margin = Margin::of(room.limit);
        let softened = scaled.soft_trim(log_q, room.soft(margin), margin);
        scaled.hard_unless(room.highest, softened, room.hard())
    }
}
