// An entry as a list keeps it. The struct stands apart from its functions, since its fact is part of it.
ghost use Rattle.std.specs.Prelude.{◌≡◌, true};
ghost use Rattle.outlook.specs.Bytes.{is_lawful};

// The byte of an entry. An `Entry` takes three bytes, so lists and patterns keep one of these for each.
#[derive(Clone, Copy)]
pub(crate) struct Packed {
    pub(crate) byte: u8,
    ghost lawful: { is_lawful byte ≡ true },
}
