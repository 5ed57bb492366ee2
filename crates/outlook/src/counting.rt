// Counting an outlook, for any implementation.
ghost use Rattle.std.specs.Prelude.{◌≡◌, ℕ, ◌≤◌, List, length};
ghost use Rattle.std.specs.List.{AllByRecursion};
ghost use Rattle.outlook.specs.Bytes.{Lawful, front};
ghost use Rattle.outlook.specs.Counting.{tally, Within};

use crate::counts::Counts;

// An outlook tells the rate controller which frames lie ahead: a list of at most 4,096 entries, which an
// implementation states by their bytes.
pub trait Outlook {
    ghost entries: { Self → List ℕ };

    // What the shortest front part of the list with so many shown entries comes to, or else the whole list.
    fn count(&self, units: u32) -> Counts
        ensures value { result ≡ tally (front units (entries self.now)) }
        ensures bound { Within 4096 result };

    ghost few: { (o : Self) → length (entries o) ≤ 4096 };

    ghost lawful: { (o : Self) → AllByRecursion Lawful (entries o) };
}
