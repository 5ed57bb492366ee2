// Making outlooks from bytes, with the questions in their order.
ghost use Rattle.std.specs.Prelude.{◌≡◌, ◌≤◌, false, vec_len, IfOk};
ghost use Rattle.std.specs.Range.{range_inclusive_start, range_inclusive_end, range_inclusive_exhausted};
ghost use Rattle.outlook.specs.Bytes.{all_lawful};
ghost use Rattle.outlook.specs.Making.{Answered, entries_question, read, listed, list_question, patterned, pattern_question};

use crate::entry::Entry;
use crate::list::List;
use crate::packed::Packed;
use crate::pattern::Pattern;
use crate::refusal::{NotMade, Refusal};
use std::alloc::Global;
use std::ops::RangeInclusive;

// The most entries of a list.
const LIST_MOST: usize = 4096;

// The fewest entries of a pattern.
const PATTERN_LEAST: usize = 1;

// The most entries of a pattern.
const PATTERN_MOST: usize = 64;

// Is every byte that of an entry?
fn all_lawful(bytes: &[u8]) -> bool
    ensures { result ≡ all_lawful bytes.now }
{
    bytes.iter().all(|byte| Entry::try_from(*byte).is_ok())
}

// The entries with these bytes. Refused: fewer or more of them than the lengths hold (31), an entry that is not lawful
// (32), in this order; then want of memory. So all bytes are asked before memory is taken, and then kept as they are.
fn entries_of(
    heap: Global,
    bytes: &[u8],
    lengths: RangeInclusive<usize>,
) -> Result<Vec<Packed>, NotMade>
    requires { range_inclusive_exhausted lengths ≡ false }
    ensures answer { Answered (entries_question (range_inclusive_start lengths) (range_inclusive_end lengths) bytes.now) bytes.now (read result) }
    ensures within { IfOk result (λ v. (range_inclusive_start lengths ≤ vec_len v) × (vec_len v ≤ range_inclusive_end lengths)) }
{
    if !lengths.contains(&bytes.len()) {
        return Err(NotMade::Refused(Refusal::WrongLength));
    }
    if !all_lawful(bytes) {
        return Err(NotMade::Refused(Refusal::Unlawful));
    }
    let mut items = Vec::with_capacity(heap, bytes.len())?;
    for byte in bytes {
        items.push_reserved(Packed { byte: *byte });
    }
    Ok(items)
}

impl List {
    // The list with these entries. Refused: more than 4,096 entries (31), an entry that is not lawful (32), in this
    // order; then want of memory.
    pub fn new(heap: Global, bytes: &[u8]) -> Result<List, NotMade>
        ensures { Answered (list_question bytes.now) bytes.now (listed result) }
    {
        let items = entries_of(heap, bytes, 0..=LIST_MOST)?;
        Ok(List { items })
    }
}

impl Pattern {
    // The pattern of these entries, repeated. Refused: no entry or more than 64 (31), an entry that is not lawful (32),
    // in this order; then want of memory.
    pub fn new(heap: Global, bytes: &[u8]) -> Result<Pattern, NotMade>
        ensures { Answered (pattern_question bytes.now) bytes.now (patterned result) }
    {
        let items = entries_of(heap, bytes, PATTERN_LEAST..=PATTERN_MOST)?;
        Ok(Pattern { items })
    }
}
