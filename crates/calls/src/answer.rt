// What the calls answer.
use crate::refusal::Refusal;
use quantize::QuantizerParameters;

// What a choice answers beside its ticket: the base that the search found, the bits that the frames ahead have to
// share, how many bases were compared, and the frame's quantizer with its base and its log.
#[derive(Clone, Copy, PartialEq, Debug)]
pub struct Decision {
    pub found: i64,
    pub total: i64,
    pub tries: u32,
    pub quantizer: QuantizerParameters,
}

// What a report answers: the bits that were charged, and whether the frame was dropped.
#[derive(Clone, Copy, PartialEq, Eq, Debug)]
pub struct Reported {
    pub charge: u32,
    pub dropped: bool,
}

// What a controller holds: its reservoir's fullness, credit and limit in bits, the rate bias, the coded frames, and
// whether a ticket is out.
#[derive(Clone, Copy, PartialEq, Eq, Debug)]
pub struct Status {
    pub fullness: i64,
    pub credit: i64,
    pub limit: i64,
    pub rate_bias: i64,
    pub coded: u32,
    pub out: bool,
}

// The answer to a recorded call. A refusal is a case here and no `Err`, since a history lists what each call was told,
// refused or not.
#[derive(Clone, Copy, PartialEq, Debug)]
pub enum Answer {
    // To a choice: the number of its ticket, and its figures.
    Chosen { ticket: u64, decision: Decision },
    // To a trial.
    Tried,
    // To a report.
    Charged(Reported),
    // To a withdrawal.
    Withdrawn,
    // To a show.
    Shown,
    // To a status.
    Told(Status),
    // To a choice, a trial, a report or a show that is refused.
    Refused(Refusal),
}
