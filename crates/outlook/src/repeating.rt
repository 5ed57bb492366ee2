// Counting entries that are repeated, by whole cycles and a walk over what is left.
ghost use Rattle.std.specs.Prelude.{◌≡◌, ◌+◌, ◌*◌, ◌/◌, ◌%◌, ◌<◌, ◌≤◌, length, if◌then◌else◌, nat_eq};
ghost use Rattle.outlook.specs.Bytes.{front, repeated};
ghost use Rattle.outlook.specs.Counting.{tally, Within};
ghost use Rattle.outlook.specs.Packing.{packed_bytes};

use crate::counts::Counts;
use crate::packed::Packed;
use crate::walking::tally_front;

// The entries of a repeated pattern.
const REPEATED: usize = 4096;

// How many whole cycles, of at most so many, lie in the front part: as many as leave a unit to reach.
fn whole_cycles(most: u32, shown: u32, units: u32) -> u32
    requires { 0 < units }
    ensures bound { result ≤ most }
    ensures under { result * shown < units }
    ensures last { result < most → units ≤ result * shown + shown }
{
    if shown == 0 {
        return most;
    }
    most.min((units - 1) / shown)
}

// How many entries of the cycle after the whole ones there are.
fn part(whole: usize, most: usize, len: usize) -> usize
    requires { 0 < len }
    ensures { result ≡ (if nat_eq whole most then 4096 % len else len) }
{
    if whole == most { REPEATED % len } else { len }
}

// What the front part of repeated entries comes to.
pub(crate) fn tally_repeated(entries: &[Packed], units: u32) -> Counts
    requires { (0 < length entries.now) × (length entries.now ≤ 64) }
    ensures value { result ≡ tally (front units (repeated (packed_bytes entries.now))) }
    ensures bound { Within 4096 result }
{
    if units == 0 {
        return Counts::default();
    }
    let cycle = tally_front(entries, u32::MAX);
    let most = REPEATED / entries.len();
    let whole = whole_cycles(most as u32, cycle.shown, units);
    let end = part(whole as usize, most, entries.len());
    let rest = tally_front(&entries[0..end], units - whole * cycle.shown);
    cycle.repeat(whole).plus(rest)
}
