// Counting entries one by one, and counts added and multiplied.
ghost use Rattle.std.specs.Prelude.{◌≡◌, ◌*◌, ◌≤◌, [], ◌∷◌, length};
ghost use Rattle.outlook.specs.Bytes.{front};
ghost use Rattle.outlook.specs.Counting.{tally, both, times, Within};
ghost use Rattle.outlook.specs.Entries.{byte_of};
ghost use Rattle.outlook.specs.Packing.{packed_bytes};

use crate::counts::Counts;
use crate::entry::{Entry, SEF};
use crate::packed::Packed;

fn product(n: u32, figure: u32) -> u32
    requires { (n ≤ 4096) × (figure ≤ 4096) }
    ensures { result ≡ n * figure }
{
    n * figure
}

impl Counts {
    // The counts of one entry.
    fn of_one(entry: Entry) -> Counts
        ensures { result ≡ tally (byte_of entry ∷ []) }
    {
        let subtype = entry.subtype();
        Counts {
            kinds: std::array::from_fn(|kind| (kind == subtype as usize) as u32),
            frames: (subtype < SEF) as u32,
            shown: entry.is_shown() as u32,
        }
    }

    // Two counts together.
    pub(crate) fn plus(self, other: Counts) -> Counts
        requires { (Within 4096 self) × (Within 4096 other) }
        ensures { result ≡ both self other }
    {
        Counts {
            kinds: std::array::from_fn(|kind| self.kinds[kind] + other.kinds[kind]),
            frames: self.frames + other.frames,
            shown: self.shown + other.shown,
        }
    }

    // A count taken n times.
    pub(crate) fn repeat(self, n: u32) -> Counts
        requires { (n ≤ 4096) × (Within 4096 self) }
        ensures { result ≡ times n self }
    {
        Counts {
            kinds: std::array::from_fn(|kind| product(n, self.kinds[kind])),
            frames: product(n, self.frames),
            shown: product(n, self.shown),
        }
    }
}

// What the shortest front part with so many shown entries comes to, or else all of them.
pub(crate) fn tally_front(entries: &[Packed], units: u32) -> Counts
    requires { length entries.now ≤ 4096 }
    ensures value { result ≡ tally (front units (packed_bytes entries.now)) }
    ensures bound { Within 4096 result }
{
    let mut all = Counts::default();
    for entry in entries {
        if all.shown == units {
            return all;
        }
        all = all.plus(Counts::of_one(Entry::from(*entry)));
    }
    all
}
