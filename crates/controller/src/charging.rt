// What reports and shows do to the reservoir and to the rest of the core.
ghost use Rattle.std.specs.Prelude.{◌≡◌, ℕ, ◌+◌, ◌*◌, ◌^◌, ◌<◌, ◌≤◌, Bool, ◌&&◌, ◌||◌, ℤ, pos, ◌+ℤ◌, ◌-ℤ◌, neg_ℤ, ◌≤ℤ◌, if◌then◌else◌, ◌==◌, nat_eq};
ghost use Rattle.std.specs.Int.{int_min};
ghost use Rattle.logexp.specs.Held.{◌⊕◌};
ghost use Rattle.flat.specs.Flat.{code_of};
ghost use Rattle.calls.specs.Numbers.{sef_bits};
ghost use Rattle.controller.specs.Charging.{exceeds, gained, settled, is_dropped, charged, surplus_of, reported_core, shown_core};
ghost use Rattle.controller.specs.Soundness.{Level, Sound};

use crate::state::{Core, Reservoir};
use calls::{Reported, SEF_BITS};
use flat::Subtype;

// A fullness less a charge.
fn less(fullness: i64, charge: u32) -> i64
    requires { (neg_ℤ (pos (2 ^ 62)) ≤ℤ fullness) × (fullness ≤ℤ pos (2 ^ 35)) }
    ensures value { result ≡ fullness -ℤ pos charge }
    ensures low { neg_ℤ (pos (2 ^ 62 + 2 ^ 32)) ≤ℤ result }
    ensures high { result ≤ℤ pos (2 ^ 35) }
{
    fullness - charge as i64
}

// What is left and a gain, but no more than the limit.
fn capped(limit: i64, left: i64, gain: i64) -> i64
    requires left { (neg_ℤ (pos (2 ^ 62 + 2 ^ 32)) ≤ℤ left) × (left ≤ℤ pos (2 ^ 35)) }
    requires gain { (pos 0 ≤ℤ gain) × (gain ≤ℤ pos (2 ^ 35)) }
    ensures { result ≡ int_min limit (left +ℤ gain) }
{
    limit.min(left + gain)
}

// A reservoir is a plain record, as its core is, so what a sum needs stands in contracts, of a gain too.
impl Reservoir {
    // Whether bits exceed fullness and one credit.
    fn exceeded_by(&self, bits: u32) -> bool
        requires { Level self.now }
        ensures { result ≡ exceeds self.now bits }
    {
        self.fullness + self.credit < bits as i64
    }

    // What a frame brings: the credit if it is shown.
    fn gain(&self, shown: bool) -> i64
        requires { Level self.now }
        ensures value { result ≡ gained self.now shown }
        ensures low { pos 0 ≤ℤ result }
        ensures high { result ≤ℤ self.now.limit }
    {
        if shown { self.credit } else { 0 }
    }

    // The fullness after a charge and a gain, at most the limit.
    fn filled(&self, charge: u32, gain: i64) -> i64
        requires level { Level self.now }
        requires low { pos 0 ≤ℤ gain }
        requires high { gain ≤ℤ self.now.limit }
        ensures { result ≡ int_min self.now.limit (self.now.fullness -ℤ pos charge +ℤ gain) }
    {
        capped(self.limit, less(self.fullness, charge), gain)
    }

    // Takes a charge; then a shown frame adds the credit; then the limit caps.
    fn settle(&mut self, charge: u32, shown: bool)
        requires { Level self.old }
        ensures { self.new ≡ settled self.old charge shown }
    {
        self.fullness = self.filled(charge, self.gain(shown));
    }
}

// Whether a frame is told as dropped.
fn is_dropped(bits: u32, dropping: bool, droppable: bool, exceeding: bool) -> bool
    ensures { result ≡ (bits == 0 || (dropping && (droppable && exceeding))) }
{
    bits == 0 || (dropping && (droppable && exceeding))
}

// The bits, or none of them.
fn unless(none: bool, bits: u32) -> u32
    ensures { result ≡ (if none then 0 else bits) }
{
    if none { 0 } else { bits }
}

// One more coded frame, if there are bits.
fn coded_by(bits: u32) -> u32
    ensures value { result ≡ (if nat_eq bits 0 then 0 else 1) }
    ensures bound { result ≤ 1 }
{
    u32::from(bits > 0)
}

// What the model predicted, where there are bits.
fn predicted_of(predicted: i64, bits: u32) -> i64
    ensures { result ≡ (if nat_eq bits 0 then pos 0 else predicted) }
{
    if bits == 0 { 0 } else { predicted }
}

// Predicted less charged.
fn surplus(predicted: i64, bits: u32, charge: u32) -> i64
    ensures { result ≡ surplus_of predicted bits charge }
{
    predicted_of(predicted, bits).saturating_sub(charge as i64)
}

impl Core {
    // Whether a report of these bits is told as dropped.
    pub(crate) fn drops(&self, bits: u32, droppable: bool) -> bool
        requires { Sound self.now }
        ensures { result ≡ is_dropped self.now bits droppable }
    {
        let exceeding = self.reservoir.exceeded_by(bits);
        is_dropped(bits, self.profile.dropping, droppable, exceeding)
    }

    // The core after a report of a frame of a subtype, for which the model predicted so many bits.
    pub(crate) fn report(
        &mut self,
        subtype: Subtype,
        predicted: i64,
        bits: u32,
        shown: bool,
        droppable: bool,
    ) -> Reported
        requires sound { Sound self.old }
        requires room { self.old.accepted < 2 ^ 30 }
        ensures answer { result ≡ record { charge = charged self.old bits droppable; dropped = is_dropped self.old bits droppable } }
        ensures after { self.new ≡ reported_core self.old subtype predicted bits shown droppable }
        ensures sound { Sound self.new }
    {
        let dropped = self.drops(bits, droppable);
        let charge = unless(dropped, bits);
        self.reservoir.settle(charge, shown);
        self.rate_bias = self
            .rate_bias
            .saturating_add(surplus(predicted, bits, charge));
        self.accepted += 1;
        self.coded += coded_by(bits);
        self.reports[u8::from(subtype) as usize] += 1;
        self.out = None;
        Reported { charge, dropped }
    }

    // The core after the show of an existing frame.
    pub(crate) fn show(&mut self)
        requires sound { Sound self.old }
        requires room { self.old.accepted < 2 ^ 30 }
        ensures after { self.new ≡ shown_core self.old }
        ensures sound { Sound self.new }
    {
        self.reservoir.settle(SEF_BITS, true);
        self.accepted += 1;
    }
}
