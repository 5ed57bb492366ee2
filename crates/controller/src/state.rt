// What a controller holds beside its model: plain records.
use flat::Subtype;
use quantize::ChromaSampling;
use tables::Depth;

// What stays as it was opened: depth and sampling, the lowest and the highest index, the delay in temporal units, and
// whether frames may be dropped.
#[derive(Clone, Copy)]
pub struct Profile {
    pub depth: Depth,
    pub sampling: ChromaSampling,
    pub lowest: u8,
    pub highest: Option<u8>,
    pub delay: u32,
    pub dropping: bool,
}

// The bit reservoir: how full it is, the credit of a shown frame, the most that it holds, and the fullness aimed at; all
// in bits. Fullness may be negative.
#[derive(Clone, Copy)]
pub struct Reservoir {
    pub fullness: i64,
    pub credit: i64,
    pub limit: i64,
    pub target: i64,
}

// The frame of a choice: its subtype and its log quantizer.
#[derive(Clone, Copy)]
pub struct Frame {
    pub subtype: Subtype,
    pub log_q: i64,
}

// All of a controller but its model: a plain record, as the rules speak of a controller by its core. What always holds
// of a core is a fact of the controller's type, and the private steps on a core or a reservoir ask for it. `accepted`
// counts reports and shows, `coded` the reports of 1 bit or more, `reports` the reports of each subtype, `choices` the
// choices modulo 2^64; `out` is the frame of the last choice while its ticket is out.
#[derive(Clone, Copy)]
pub struct Core {
    pub profile: Profile,
    pub reservoir: Reservoir,
    pub rate_bias: i64,
    pub accepted: u32,
    pub coded: u32,
    pub reports: [u32; 4],
    pub choices: u64,
    pub out: Option<Frame>,
}
