// The figures that follow from settings whose size, frame rate and timing are lawful.
ghost use Rattle.std.specs.Prelude.{◌≡◌, ◌-◌, ◌*◌, ◌/◌, ◌^◌, ◌<◌, ◌≤◌, min, max};
ghost use Rattle.setup.specs.Opening.{Lawful, credit_of, units_of, pixels_of};

use crate::settings::{DELAY_LEAST, Settings};

// The longest delay that is taken where none is set.
const DELAY_USUAL_MOST: u32 = 240;

// The least and the greatest number of bits of a temporal unit, before its delimiter is taken off.
const UNIT_LEAST: u64 = 40;

const UNIT_MOST: u64 = 1 << 46;

// The bits of a temporal delimiter, which no frame's bits count in.
const DELIMITER: u64 = 16;

// Settings whose size, frame rate and timing are lawful. The bounds of the figures stay in clauses: a type for each
// would be unwrapped where it is reckoned with.
#[derive(Clone, Copy)]
pub struct LawfulSettings {
    pub settings: Settings,
    ghost lawful: { Lawful settings },
}

// The bits of a temporal unit, within its bounds, less its delimiter.
fn credit_of(bitrate: u32, denominator: u32, numerator: u32) -> u64
    requires { 0 < numerator }
    ensures value { result ≡ max 40 (min (bitrate * denominator / numerator) (2 ^ 46)) - 16 }
    ensures low { 24 ≤ result }
    ensures high { result < 2 ^ 46 }
{
    (bitrate as u64 * denominator as u64 / numerator as u64)
        .min(UNIT_MOST)
        .max(UNIT_LEAST)
        - DELIMITER
}

impl LawfulSettings {
    // The pixels of a frame.
    pub fn pixels(&self) -> u64
        ensures value { result ≡ pixels_of self.now.settings }
        ensures high { result ≤ 2 ^ 32 }
    {
        self.settings.width as u64 * self.settings.height as u64
    }

    // The bits that each shown frame brings.
    pub fn credit(&self) -> u64
        ensures value { result ≡ credit_of self.now.settings }
        ensures low { 24 ≤ result }
        ensures high { result < 2 ^ 46 }
    {
        let asked = self.settings;
        credit_of(asked.bitrate, asked.denominator, asked.numerator)
    }

    // The reservoir's delay, in temporal units.
    pub fn units(&self) -> u32
        ensures value { result ≡ units_of self.now.settings }
        ensures low { 12 ≤ result }
        ensures high { result ≤ 1024 }
    {
        match self.settings.delay {
            None => (self.settings.interval * 3 / 2)
                .min(DELAY_USUAL_MOST)
                .max(DELAY_LEAST),
            Some(d) => d,
        }
    }
}
