// What a bit model learns from.

// What a frame used: its subtype, its bits and its log quantizer; whether it was coded in a trial; and how many reports
// of its subtype came before. A subtype is a number here, since a lesson of one above 3 is taken too, and teaches
// nothing.
#[derive(Clone, Copy, PartialEq, Eq, Debug)]
pub struct Lesson {
    pub subtype: u8,
    pub bits: u32,
    pub log_q: i64,
    pub trial: bool,
    pub reports: u32,
}
