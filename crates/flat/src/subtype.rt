// The subtypes of coded frames, and how far the log quantizer of each lies from the base.
ghost use Rattle.std.specs.Prelude.{◌≡◌, ◌<◌};
ghost use Rattle.std.specs.Result.{result_ok};
ghost use Rattle.flat.specs.Flat.{subtype_of_code, code_of, distance, log_q_of, Near};

use std::error::Error;
use std::fmt;

// A key frame or other intra frame, a frame predicted from the past, and two levels of frames predicted from both sides.
#[derive(Clone, Copy, PartialEq, Eq, Debug)]
pub enum Subtype {
    I,
    P,
    B0,
    B1,
}

// 8 times the whole number nearest to 33,810,170 * 2^54 / 86,043,287.
const DQP: i64 = 56_629_159_325_661_976;

// A code that stands for no subtype.
#[derive(Clone, Copy, PartialEq, Eq, Debug)]
pub struct NoSuchSubtype;

impl fmt::Display for NoSuchSubtype {
    fn fmt<W: fmt::Write>(&self, f: &mut fmt::Formatter<W>) -> fmt::Result {
        f.write_str("the subtype is not 0, 1, 2 or 3")
    }
}

impl Error for NoSuchSubtype {}

// The subtype with a code: 0 is I, 1 is P, 2 is B0, 3 is B1; an error at any other.
impl TryFrom<u8> for Subtype {
    type Error = NoSuchSubtype;

    ghost try_from_gives = { λ code r. result_ok r ≡ subtype_of_code code };

    fn try_from(code: u8) -> Result<Subtype, NoSuchSubtype> {
        match code {
            0 => Ok(Subtype::I),
            1 => Ok(Subtype::P),
            2 => Ok(Subtype::B0),
            3 => Ok(Subtype::B1),
            _ => Err(NoSuchSubtype),
        }
    }
}

// The code of a subtype, as `try_from` takes it.
impl From<Subtype> for u8 {
    ghost from_gives = { λ subtype code. (code ≡ code_of subtype) × (code < 4) };

    fn from(subtype: Subtype) -> u8 {
        match subtype {
            Subtype::I => 0,
            Subtype::P => 1,
            Subtype::B0 => 2,
            Subtype::B1 => 3,
        }
    }
}

impl Subtype {
    // How far the log quantizer lies from the base.
    fn dqp(self) -> i64
        ensures { result ≡ distance self }
    {
        match self {
            Subtype::I => -DQP,
            Subtype::P => 0,
            Subtype::B0 => DQP,
            Subtype::B1 => 2 * DQP,
        }
    }

    // The log quantizer of a frame of this subtype, from the base log: the base to the nearest multiple of 2^12,
    // and the subtype's distance. A base within 8 doublings of 0 gives a log within 16.
    pub fn log_q(self, log_base_q: i64) -> i64
        ensures value { result ≡ log_q_of self log_base_q }
        ensures near { Near 8 log_base_q → Near 16 result }
    {
        let steps = log_base_q.saturating_add(1 << 11) >> 12;
        steps.saturating_mul(1 << 12).saturating_add(self.dqp())
    }
}
