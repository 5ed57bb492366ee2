// How chroma is sampled.
ghost use Rattle.std.specs.Prelude.{◌≡◌};
ghost use Rattle.std.specs.Result.{result_ok};
ghost use Rattle.planes.specs.Planes.{sampling_of, monochrome};

use std::error::Error;
use std::fmt;

// 4:2:0, 4:2:2, 4:4:4 or no chroma at all.
#[derive(Clone, Copy, PartialEq, Eq, Debug)]
pub enum ChromaSampling {
    Cs420,
    Cs422,
    Cs444,
    Cs400,
}

// A code that stands for no sampling.
#[derive(Clone, Copy, PartialEq, Eq, Debug)]
pub struct NoSuchSampling;

impl fmt::Display for NoSuchSampling {
    fn fmt<W: fmt::Write>(&self, f: &mut fmt::Formatter<W>) -> fmt::Result {
        f.write_str("the sampling is not 0, 1, 2 or 3")
    }
}

impl Error for NoSuchSampling {}

// The sampling with a code: 0 is 4:2:0, 1 is 4:2:2, 2 is 4:4:4, 3 is monochrome; an error at any other.
impl TryFrom<u8> for ChromaSampling {
    type Error = NoSuchSampling;

    ghost try_from_gives = { λ code r. result_ok r ≡ sampling_of code };

    fn try_from(code: u8) -> Result<ChromaSampling, NoSuchSampling> {
        match code {
            0 => Ok(ChromaSampling::Cs420),
            1 => Ok(ChromaSampling::Cs422),
            2 => Ok(ChromaSampling::Cs444),
            3 => Ok(ChromaSampling::Cs400),
            _ => Err(NoSuchSampling),
        }
    }
}

impl ChromaSampling {
    // Whether there is no chroma.
    pub fn is_monochrome(self) -> bool
        ensures { result ≡ monochrome self }
    {
        self == ChromaSampling::Cs400
    }
}
