// What the tests open with, and what they ask models.
use model::{Lesson, Room, Settings};

// One doubling, as a log.
pub(crate) const ONE: i64 = 1 << 57;

// 640 by 360 at 25 frames and 1,000,000 bits a second, a delay of 12.
// They stand in each crate of tests that needs them, since such a crate offers nothing to another.
pub(crate) const USUAL: Settings = Settings {
    width: 640,
    height: 360,
    numerator: 25,
    denominator: 1,
    bitrate: 1_000_000,
    depth: 8,
    sampling: 0,
    lowest: 0,
    highest: None,
    interval: 240,
    delay: Some(12),
    dropping: false,
};

// A lesson, by its parts in their order.
pub(crate) fn lesson(subtype: u8, bits: u32, log_q: i64, trial: bool, reports: u32) -> Lesson {
    Lesson {
        subtype,
        bits,
        log_q,
        trial,
        reports,
    }
}

// The room of a frame, by its parts in their order.
pub(crate) fn room(fullness: i64, credit: i64, limit: i64, highest: bool) -> Room {
    Room {
        fullness,
        credit,
        limit,
        highest,
    }
}
