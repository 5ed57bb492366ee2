// What a bit model is: a state that gives a predicted count of bits for each subtype and each log quantizer.
ghost use Rattle.std.specs.Prelude.{◌≡◌, pos};
ghost use Rattle.model.specs.Meaning.{Meaning, ModelLaws};

use crate::lesson::Lesson;
use crate::room::Room;

// A bit model. Subtypes are 0 to 3 (I, P, B0, B1), a log quantizer is in Q57. Nothing is refused: a subtype
// above 3 predicts 0, teaches nothing and is trimmed to its own log quantizer. That is why a subtype is a number here
// and no enum.
pub trait BitModel {
    // What the model predicts, what it trims to, and what a lesson makes of it.
    ghost meaning: { Meaning Self };

    // The predicted bits of a frame of a subtype at a log quantizer; 0 for a subtype above 3.
    fn predict(&self, subtype: u8, log_q: i64) -> i64
        ensures { result ≡ pos (meaning.count self.now subtype log_q) };

    // The log quantizer to use in place of one, so that the reservoir neither runs over nor runs empty with the
    // next frame. It is the same one for a subtype above 3 or a limit under 1.
    fn trim(&self, subtype: u8, log_q: i64, room: Room) -> i64
        ensures { result ≡ meaning.trimmed self.now subtype log_q room };

    // Learns from what a frame used. A subtype above 3 or bits of 0 change nothing.
    fn learn(&mut self, lesson: Lesson)
        ensures { self.new ≡ meaning.next self.old lesson };

    // What each `impl` must prove.
    ghost laws: { ModelLaws meaning };
}
