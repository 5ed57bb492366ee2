// What counting is, told over any list of entries.
ghost use Rattle.outlook.specs.Laws.{CountsStand, PatternsStand};

// For any list and any units: the part that is counted is a front part; it has at most so many shown entries, exactly
// so many where the list has them, and is the whole list where it has not; no shorter front part has so many; it ends
// with a shown entry where it is not the whole list. The frames are the first four counts together, and each lawful
// entry is a frame or a show of an existing frame.
pub fn counts_stand() -> u8
    ensures { CountsStand }
{
    0
}

// For any pattern that is not empty: it is repeated to exactly 4,096 entries, and the entry at a place is the pattern's
// at the remainder of the place by the pattern's length.
pub fn patterns_stand() -> u8
    ensures { PatternsStand }
{
    0
}
