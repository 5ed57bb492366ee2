// One recorded call, and what the show of an existing frame takes.

// The bits of the show of an existing frame.
pub const SEF_BITS: u32 = 24;

// A call of a controller. A ticket stands here by its number, and an outlook by its place in a list of outlooks; a place
// outside that list stands for an outlook with no entries. Subtypes and places are plain numbers, bad ones too, since a
// call is recorded as it was made, and its answer is what refuses it.
#[derive(Clone, Copy)]
pub enum Call {
    // A choice for a frame of a subtype (0 I, 1 P, 2 B0, 3 B1), with the base of the previous frame, if there is one.
    Choose {
        subtype: u8,
        outlook: usize,
        previous: Option<i64>,
        log_isqrt_mean_scale: i64,
    },
    // The frame was coded on trial: it used so many bits, and is coded again.
    Trial {
        ticket: u64,
        bits: u32,
    },
    // The frame was coded: it used so many bits.
    Report {
        ticket: u64,
        bits: u32,
        shown: bool,
        droppable: bool,
    },
    // The frame is not coded.
    Withdraw {
        ticket: u64,
    },
    // An existing frame is shown.
    Show,
    // What the controller holds.
    Status,
}
