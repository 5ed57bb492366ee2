// An outlook of either kind, so that lists and patterns can lie in one slice.
ghost use Rattle.outlook.specs.Either.{entries_known};
ghost use Rattle.outlook.specs.Eithers.{known_few, known_lawful};

use crate::counting::Outlook;
use crate::counts::Counts;
use crate::list::List;
use crate::pattern::Pattern;

// A list, or a pattern that is repeated.
#[derive(Drop)]
pub enum Known {
    Listed(List),
    Repeated(Pattern),
}

impl Outlook for Known {
    ghost entries = { entries_known };

    ghost few = { λ o. known_few o };

    ghost lawful = { λ o. known_lawful o };

    fn count(&self, units: u32) -> Counts {
        match self {
            Known::Listed(list) => list.count(units),
            Known::Repeated(pattern) => pattern.count(units),
        }
    }
}
