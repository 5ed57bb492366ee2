// What a controller and its curve are opened with, the eight questions put to it in order, and the figures that
// accepted settings give. Depth and sampling are those of `quantize`.
ghost use Rattle.std.specs.Prelude.{◌≡◌, ◌*◌, ◌^◌, ◌<◌, ◌≤◌, true, IfOk};
ghost use Rattle.setup.specs.Tests.{lawful_delay, lawful_highest, sized, rated, timed};
ghost use Rattle.setup.specs.Questions.{answered, typed, accepted};
ghost use Rattle.setup.specs.Opening.{accepted_of, Lawful, Sound};

use crate::lawful::LawfulSettings;
use crate::refusal::Refusal;
use quantize::ChromaSampling;
use tables::Depth;

// The greatest width and height.
const SIZE_MOST: u32 = 65_536;

// The greatest numerator and denominator of the frame rate.
const RATE_MOST: u32 = 1_000_000;

// The greatest bitrate, in bits per second.
const BITRATE_MOST: u32 = 2_147_483_647;

// The greatest number of frames from one key frame to the next.
const INTERVAL_MOST: u32 = 10_000;

// The shortest and the longest delay of the reservoir, in temporal units.
pub(crate) const DELAY_LEAST: u32 = 12;

const DELAY_MOST: u32 = 1_024;

// The greatest limit of the reservoir, in bits.
const LIMIT_MOST: u64 = 1 << 35;

// What is asked for, in raw numbers: the frame's size, the frame rate, the bitrate in bits per second, the bit
// depth, the code of the sampling, the lowest and the highest quantizer index, the frames from one key frame to
// the next, the reservoir's delay in temporal units, and whether frames may be dropped. They are numbers and no enums,
// since the questions are put to bad ones too.
#[derive(Clone, Copy)]
pub struct Settings {
    pub width: u32,
    pub height: u32,
    pub numerator: u32,
    pub denominator: u32,
    pub bitrate: u32,
    pub depth: u8,
    pub sampling: u8,
    pub lowest: u8,
    pub highest: Option<u8>,
    pub interval: u32,
    pub delay: Option<u32>,
    pub dropping: bool,
}

// What accepted settings come to. Credit is the bits that each shown frame brings, limit the most that the
// reservoir holds, target its fullness at opening and the fullness aimed at; all in bits.
#[derive(Clone, Copy)]
pub struct Accepted {
    pub depth: Depth,
    pub sampling: ChromaSampling,
    pub lowest: u8,
    pub highest: Option<u8>,
    pub credit: i64,
    pub delay: u32,
    pub limit: i64,
    pub target: i64,
    pub dropping: bool,
}

// Whether a delay is absent or lawful.
fn lawful_delay(delay: Option<u32>) -> bool
    ensures { result ≡ lawful_delay delay }
{
    delay.is_none_or(|d| (DELAY_LEAST..=DELAY_MOST).contains(&d))
}

// Whether a highest index is absent or not under the lowest.
fn lawful_highest(lowest: u8, highest: Option<u8>) -> bool
    ensures { result ≡ lawful_highest lowest highest }
{
    highest.is_none_or(|h| lowest <= h)
}

// Goes on where a question is answered by yes.
fn ask(yes: bool, no: Refusal) -> Result<(), Refusal>
    ensures { result ≡ answered yes no }
{
    if yes { Ok(()) } else { Err(no) }
}

impl Settings {
    // Question 1.
    fn sized(&self) -> bool
        ensures { result ≡ sized self.now }
    {
        (1..=SIZE_MOST).contains(&self.width) && (1..=SIZE_MOST).contains(&self.height)
    }

    // Question 2.
    fn rated(&self) -> bool
        ensures { result ≡ rated self.now }
    {
        (1..=RATE_MOST).contains(&self.numerator) && (1..=RATE_MOST).contains(&self.denominator)
    }

    // Question 7.
    fn timed(&self) -> bool
        ensures { result ≡ timed self.now }
    {
        (1..=INTERVAL_MOST).contains(&self.interval) && lawful_delay(self.delay)
    }

    // Questions 1 to 7, and the depth and the sampling that they find.
    fn typed(&self) -> Result<(Depth, ChromaSampling), Refusal>
        ensures { result ≡ typed self.now }
    {
        ask(self.sized(), Refusal::Size)?;
        ask(self.rated(), Refusal::Rate)?;
        ask((1..=BITRATE_MOST).contains(&self.bitrate), Refusal::Bitrate)?;
        let depth = Depth::try_from(self.depth)?;
        let sampling = ChromaSampling::try_from(self.sampling)?;
        ask(lawful_highest(self.lowest, self.highest), Refusal::Indexes)?;
        ask(self.timed(), Refusal::Timing)?;
        Ok((depth, sampling))
    }

    // The settings, as those from which figures follow.
    pub fn lawful(&self) -> LawfulSettings
        requires { Lawful self.now }
        ensures { result.settings ≡ self.now }
    {
        LawfulSettings { settings: *self }
    }

    // The figures that settings give once they are accepted.
    fn figures(&self, depth: Depth, sampling: ChromaSampling, credit: u64, delay: u32) -> Accepted
        requires { (24 ≤ credit) × ((credit < 2 ^ 46) × ((12 ≤ delay) × ((delay ≤ 1024) × (credit * delay ≤ 2 ^ 35)))) }
        ensures value { result ≡ accepted_of self.now depth sampling credit delay }
        ensures sound { Sound result }
    {
        let limit = credit * delay as u64;
        Accepted {
            depth,
            sampling,
            lowest: self.lowest,
            highest: self.highest,
            credit: credit as i64,
            delay,
            limit: limit as i64,
            target: ((limit + 1) >> 1) as i64,
            dropping: self.dropping,
        }
    }

    // The figures of the settings, or the first of the eight questions that is answered by no.
    pub fn accept(&self) -> Result<Accepted, Refusal>
        ensures value { result ≡ accepted self.now }
        ensures sound { IfOk result Sound }
        ensures lawful { IfOk result (λ _. Lawful self.now) }
        ensures ordered { IfOk result (λ a. lawful_highest a.lowest a.highest ≡ true) }
    {
        let (depth, sampling) = self.typed()?;
        let lawful = self.lawful();
        let credit = lawful.credit();
        let delay = lawful.units();
        if credit * delay as u64 > LIMIT_MOST {
            return Err(Refusal::Limit);
        }
        Ok(self.figures(depth, sampling, credit, delay))
    }
}
