// An entry from the byte that a list keeps.
ghost use Rattle.std.specs.Prelude.{◌≡◌};
ghost use Rattle.outlook.specs.Entries.{byte_of};

use crate::entry::Entry;
use crate::packed::Packed;

// The entry whose byte was kept.
impl From<Packed> for Entry {
    ghost from_gives = { λ packed entry. byte_of entry ≡ packed.byte };

    fn from(packed: Packed) -> Entry {
        Entry::try_from(packed.byte).unwrap()
    }
}
