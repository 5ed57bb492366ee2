// The stair: 64 counts for each of the four subtypes, one for each quarter of a doubling of the quantizer.
ghost use Rattle.std.specs.Prelude.{◌≡◌, ℕ, ◌+◌, ◌-◌, ◌*◌, ◌^◌, ◌<◌, ◌≤◌, Bool, length, ℤ, pos, IfOk};
ghost use Rattle.stair.specs.Stairs.{step, stair_meaning, descends, lawful_rows, stair_made};
ghost use Rattle.stair.specs.Laws.{NeverMore};
ghost use Rattle.std.proofs.Common.{rules};

use crate::refusal::Refusal;
use model::{BitModel, Lesson, Room};

// The step of a log quantizer of 0.
const STEP_OF_ZERO: i64 = 24;

// A table of counts: a row for each subtype, and a count for each step of the log quantizer, as many as the rules say.
// No row ever rises.
#[derive(Clone, Copy)]
pub struct Stair {
    rows: [[u32; 64]; 4],
}

// The step of a log quantizer: 4 to a doubling, kept within 0 to 63.
fn step_of(log_q: i64) -> usize
    ensures { result ≡ step log_q }
{
    ((log_q >> 55) + STEP_OF_ZERO).clamp(0, 63) as usize
}

// Whether a row never rises.
fn descends(row: &[u32; 64]) -> bool
    ensures { result ≡ descends row.now 63 }
{
    row.is_sorted_by(|count, next| next <= count)
}

// Whether none of the rows ever rises.
fn all_descend(rows: &[[u32; 64]; 4]) -> bool
    ensures { result ≡ lawful_rows rows.now }
{
    rows.iter().all(|row| descends(row))
}

impl Stair {
    // The stair with these rows. Refused: 34 where a row rises somewhere. A higher log quantizer never predicts more.
    pub fn new(rows: [[u32; 64]; 4]) -> Result<Stair, Refusal>
        ensures made { result ≡ stair_made rows }
        ensures ordered { IfOk result NeverMore }
    {
        if !all_descend(&rows) {
            return Err(Refusal::Rises);
        }
        Ok(Stair { rows })
    }
}

impl BitModel for Stair {
    ghost meaning = { stair_meaning };

    ghost laws = { Prim.search rules };

    // The rule speaks of subtypes above 3, and the test is put as it is; it counts no index.
    fn predict(&self, subtype: u8, log_q: i64) -> i64 {
        if subtype > 3 {
            return 0;
        }
        self.rows[subtype as usize][step_of(log_q)] as i64
    }

    fn trim(&self, _subtype: u8, log_q: i64, _room: Room) -> i64 {
        log_q
    }

    fn learn(&mut self, _lesson: Lesson) {}
}
