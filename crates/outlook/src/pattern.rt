// An outlook that is a short pattern, repeated. It rests on the counting of repeated entries.
ghost use Rattle.std.specs.Prelude.{◌<◌, ◌≤◌, vec_len};
ghost use Rattle.outlook.specs.Bytes.{repeated};
ghost use Rattle.outlook.specs.Cycles.{repeated_few, repeated_lawful};
ghost use Rattle.outlook.specs.Packing.{packed_bytes, packed_lawful};

use crate::counting::Outlook;
use crate::counts::Counts;
use crate::packed::Packed;
use crate::repeating::tally_repeated;

// A pattern of 1 to 64 entries, repeated from its first entry to 4,096 entries.
#[derive(Drop)]
pub struct Pattern {
    pub(crate) items: Vec<Packed>,
    ghost some: { 0 < vec_len items },
    ghost few: { vec_len items ≤ 64 },
}

impl Outlook for Pattern {
    ghost entries = { λ o. repeated (packed_bytes o.items.items) };

    ghost few = { λ o. repeated_few (packed_bytes o.items.items) };

    ghost lawful = { λ o. repeated_lawful (packed_bytes o.items.items) (packed_lawful o.items.items) };

    // It walks over the pattern at most twice.
    fn count(&self, units: u32) -> Counts {
        tally_repeated(self.items.as_slice(), units)
    }
}
