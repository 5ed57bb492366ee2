// What the tests judge bytes by.
ghost use Rattle.std.specs.Prelude.{◌≡◌};
ghost use Rattle.outlook.specs.Entries.{read_byte};

use outlook::Entry;

// The byte of the entry that a byte is read as; none where it is none's.
pub(crate) fn read_again(byte: u8) -> Option<u8>
    ensures { result ≡ read_byte byte }
{
    match Entry::try_from(byte) {
        Ok(entry) => Some(u8::from(entry)),
        Err(_) => None,
    }
}
