// The bit depths of AV1.
ghost use Rattle.std.specs.Prelude.{◌≡◌};
ghost use Rattle.std.specs.Result.{result_ok};
ghost use Rattle.tables.specs.Depths.{depth_of, depth_log};

use std::error::Error;
use std::fmt;

// How many bits a sample has.
#[derive(Clone, Copy, PartialEq, Eq, Debug)]
pub enum Depth {
    Eight,
    Ten,
    Twelve,
}

// A number of bits that is no bit depth of AV1.
#[derive(Clone, Copy, PartialEq, Eq, Debug)]
pub struct NoSuchDepth;

impl fmt::Display for NoSuchDepth {
    fn fmt<W: fmt::Write>(&self, f: &mut fmt::Formatter<W>) -> fmt::Result {
        f.write_str("the bit depth is not 8, 10 or 12")
    }
}

impl Error for NoSuchDepth {}

// The depth of 8, 10 or 12 bits; an error at any other number.
impl TryFrom<u8> for Depth {
    type Error = NoSuchDepth;

    ghost try_from_gives = { λ bits r. result_ok r ≡ depth_of bits };

    fn try_from(bits: u8) -> Result<Depth, NoSuchDepth> {
        match bits {
            8 => Ok(Depth::Eight),
            10 => Ok(Depth::Ten),
            12 => Ok(Depth::Twelve),
            _ => Err(NoSuchDepth),
        }
    }
}

impl Depth {
    // The log in Q57 of the tables' unit at this depth, depth - 5 doublings: entries are eighths at 8 bits, and 4
    // times as large for each two bits more.
    pub fn log_scale(self) -> i64
        ensures { result ≡ depth_log self }
    {
        match self {
            Depth::Eight => 3 << 57,
            Depth::Ten => 5 << 57,
            Depth::Twelve => 7 << 57,
        }
    }
}
