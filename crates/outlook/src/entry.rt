// One entry of an outlook, from its byte and back, and what it says.
ghost use Rattle.std.specs.Prelude.{◌≡◌, ◌<◌};
ghost use Rattle.outlook.specs.Bytes.{subtype_of, is_shown};
ghost use Rattle.outlook.specs.Entries.{byte_of, byte_in, read_byte};

use flat::Subtype;
use std::error::Error;
use std::fmt;

// One coming frame: a frame of a subtype, which is shown or not, or the show of an existing frame, which always is.
#[derive(Clone, Copy, PartialEq, Eq, Debug)]
pub enum Entry {
    Frame { subtype: Subtype, shown: bool },
    ShowExisting,
}

// Bit 3 of the byte, which says that the entry is shown. The bits below are the subtype.
const SHOWN: u8 = 8;

// Bit 4 of the byte. It and the bits above are 0.
const UNUSED: u8 = 16;

// The show of an existing frame. The subtypes below are those of frames.
pub(crate) const SEF: u8 = 4;

// A byte that is not that of an entry.
#[derive(Clone, Copy, PartialEq, Eq, Debug)]
pub struct NoSuchEntry;

impl fmt::Display for NoSuchEntry {
    fn fmt<W: fmt::Write>(&self, f: &mut fmt::Formatter<W>) -> fmt::Result {
        f.write_str("the byte is not that of an entry")
    }
}

impl Error for NoSuchEntry {}

// The entry with a byte; none where a bit above bit 3 is set, the subtype is above 4, or a show of an existing frame
// is not shown.
impl TryFrom<u8> for Entry {
    type Error = NoSuchEntry;

    ghost try_from_gives = { λ byte made. byte_in made ≡ read_byte byte };

    fn try_from(byte: u8) -> Result<Entry, NoSuchEntry> {
        if byte >= UNUSED {
            return Err(NoSuchEntry);
        }
        let shown = byte >= SHOWN;
        let subtype = byte % SHOWN;
        if subtype == SEF && shown {
            return Ok(Entry::ShowExisting);
        }
        let subtype = Subtype::try_from(subtype).map_err(|_| NoSuchEntry)?;
        Ok(Entry::Frame { subtype, shown })
    }
}

// The byte of an entry: its subtype, and bit 3 where it is shown.
impl From<Entry> for u8 {
    ghost from_gives = { λ entry byte. byte ≡ byte_of entry };

    fn from(entry: Entry) -> u8 {
        if entry.is_shown() {
            entry.subtype() + SHOWN
        } else {
            entry.subtype()
        }
    }
}

impl Entry {
    // The subtype: 0 to 3 are I, P, B0 and B1, 4 is the show of an existing frame, which is no subtype of a coded
    // frame: so it is told by its number, as rules and models have it.
    pub fn subtype(self) -> u8
        ensures value { result ≡ subtype_of (byte_of self) }
        ensures bound { result < 5 }
    {
        match self {
            Entry::Frame { subtype, .. } => u8::from(subtype),
            Entry::ShowExisting => SEF,
        }
    }

    // Is the frame shown?
    pub fn is_shown(self) -> bool
        ensures { result ≡ is_shown (byte_of self) }
    {
        match self {
            Entry::Frame { shown, .. } => shown,
            Entry::ShowExisting => true,
        }
    }
}
