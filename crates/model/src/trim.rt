// The soft limit and the hard limit of one frame's bits, as logs. Every sum, difference and product is held.
ghost use Rattle.std.specs.Prelude.{◌≡◌, ℕ, ◌+◌, ◌-◌, ◌*◌, ◌/◌, ◌^◌, ◌<◌, ◌≤◌, max, Bool, ℤ, pos, ◌≤ℤ◌};
ghost use Rattle.model.specs.Scales.{powered};
ghost use Rattle.model.specs.Trims.{margin_of, share_of, rooted, unpowered, eased, soft_trim, hard_trim, hard_unless};

// An exponent in Q6, at least 1.
#[derive(Clone, Copy)]
pub(crate) struct Exponent {
    value: u8,
    ghost least: { 1 ≤ value },
}

impl Exponent {
    // The exponent, and 1 in place of 0.
    pub(crate) fn of(value: u8) -> Exponent
        ensures { result.value ≡ max value 1 }
    {
        Exponent {
            value: value.max(1),
        }
    }

    // The log of a quantizer's power: the log, from Q57 to Q51 to the nearest, times the exponent.
    pub(crate) fn powered(self, log_q: i64) -> i64
        ensures { result ≡ powered log_q (pos self.value) }
    {
        (log_q.saturating_add(32) >> 6).saturating_mul(self.value as i64)
    }

    // The log of a power divided by the exponent: half the exponent is added, and the fraction dropped towards 0.
    fn rooted(self, power: i64) -> i64
        ensures { result ≡ rooted power self.value }
    {
        power.saturating_add((self.value >> 1) as i64) / self.value as i64
    }

    // The log quantizer of a power, in Q57.
    fn unpowered(self, power: i64) -> i64
        ensures { result ≡ unpowered power self.value }
    {
        self.rooted(power).saturating_mul(1 << 6)
    }
}

// The part of the reservoir that is left for errors of prediction, at least 1 bit.
#[derive(Clone, Copy)]
pub(crate) struct Margin {
    pub(crate) bits: i64,
    ghost least: { pos 1 ≤ℤ bits },
}

impl Margin {
    // A 32nd of the limit, rounded up.
    pub(crate) fn of(limit: i64) -> Margin
        requires { pos 1 ≤ℤ limit }
        ensures { result.bits ≡ margin_of limit }
    {
        Margin {
            bits: limit.saturating_add(31) >> 5,
        }
    }

    // How far into the margin the soft limit is, in Q32 and at most 1.
    fn share(self, soft: i64) -> i64
        ensures { result ≡ share_of self.bits soft }
    {
        self.bits.min(soft).saturating_mul(1 << 32) / self.bits
    }
}

// The power, moved by its share of the way to the one that uses the soft limit.
fn eased(power: i64, pixels: i64, log_soft: i64, share: i64) -> i64
    ensures { result ≡ eased power pixels log_soft share }
{
    power.saturating_add(
        (pixels.saturating_sub(log_soft).saturating_sub(power) >> 32).saturating_mul(share),
    )
}

// What a trim reckons with: the exponent, and the log of the follower's scale times the pixels.
#[derive(Clone, Copy)]
pub(crate) struct Scaled {
    pub(crate) exp: Exponent,
    pub(crate) pixels: i64,
}

impl Scaled {
    // A frame that would use too few bits is given a lower log quantizer, the more so the further it is into the
    // margin.
    pub(crate) fn soft_trim(self, log_q: i64, soft: i64, margin: Margin) -> i64
        ensures { result ≡ soft_trim self.exp.value self.pixels log_q soft margin.bits }
    {
        if soft <= 0 {
            return log_q;
        }
        let log_soft = logexp::blog64(soft);
        let power = self.exp.powered(log_q);
        if self.pixels.saturating_sub(power) >= log_soft {
            return log_q;
        }
        self.exp
            .unpowered(eased(power, self.pixels, log_soft, margin.share(soft)))
    }

    // A frame that would use too many bits is given the log quantizer that uses just the hard limit.
    fn hard_trim(self, log_q: i64, hard: i64) -> i64
        ensures { result ≡ hard_trim self.exp.value self.pixels log_q hard }
    {
        let log_hard = logexp::blog64(hard);
        if self.pixels.saturating_sub(self.exp.powered(log_q)) <= log_hard {
            return log_q;
        }
        self.exp.unpowered(self.pixels.saturating_sub(log_hard))
    }

    // The hard limit, unless a highest index is set.
    pub(crate) fn hard_unless(self, highest: bool, log_q: i64, hard: i64) -> i64
        ensures { result ≡ hard_unless highest self.exp.value self.pixels log_q hard }
    {
        if highest {
            log_q
        } else {
            self.hard_trim(log_q, hard)
        }
    }
}
