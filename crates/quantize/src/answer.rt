// What the quantizer answers; why it refuses is passed on from `raw_tables`.
pub use raw_tables::Refusal;
use std::fmt;

// The scale of each plane, by which its distortion is weighed: of luma alone, or of luma and both chroma planes.
#[derive(Clone, Copy, PartialEq, Debug)]
pub enum Scales {
    Mono(f64),
    Colour(f64, f64, f64),
}

// The quantizer of a frame: the two logs that it was made from, in Q57, the DC and the AC index of each plane (0 for
// the chroma planes of a monochrome frame), and the scales. The indexes stand in two arrays with that 0, by a rule: so
// rav1e's record has them, and a bitstream writes them.
#[derive(Clone, Copy, PartialEq, Debug)]
pub struct QuantizerParameters {
    pub log_base_q: i64,
    pub log_target_q: i64,
    pub dc_qi: [u8; 3],
    pub ac_qi: [u8; 3],
    pub scales: Scales,
}

// The scales in the order of the planes, with commas.
impl fmt::Display for Scales {
    fn fmt<W: fmt::Write>(&self, f: &mut fmt::Formatter<W>) -> fmt::Result {
        match self {
            Scales::Mono(y) => write!(f, "{y}"),
            Scales::Colour(y, u, v) => write!(f, "{y},{u},{v}"),
        }
    }
}

// The indexes and the scales, without the logs.
impl fmt::Display for QuantizerParameters {
    fn fmt<W: fmt::Write>(&self, f: &mut fmt::Formatter<W>) -> fmt::Result {
        let [y, u, v] = self.dc_qi;
        write!(f, "dc={y},{u},{v} ")?;
        let [y, u, v] = self.ac_qi;
        write!(f, "ac={y},{u},{v} ")?;
        let scales = self.scales;
        write!(f, "scales={scales}")
    }
}
