// An outlook that is a list of entries. It rests on the walk over entries.
ghost use Rattle.std.specs.Prelude.{◌≤◌, vec_len};
ghost use Rattle.outlook.specs.Packing.{packed_bytes, packed_few, packed_lawful};

use crate::counting::Outlook;
use crate::counts::Counts;
use crate::packed::Packed;
use crate::walking::tally_front;

// A list of at most 4,096 entries.
#[derive(Drop)]
pub struct List {
    pub(crate) items: Vec<Packed>,
    ghost few: { vec_len items ≤ 4096 },
}

impl Outlook for List {
    ghost entries = { λ o. packed_bytes o.items.items };

    ghost few = { λ o. packed_few o.items.items (vec_len o.items) o.items.ok.0 o.few };

    ghost lawful = { λ o. packed_lawful o.items.items };

    // It walks over the entries that it counts, and no further.
    fn count(&self, units: u32) -> Counts {
        tally_front(self.items.as_slice(), units)
    }
}
