// An outlook with nothing ahead.
ghost use Rattle.std.specs.Prelude.{[]};
ghost use Rattle.std.proofs.Common.{rules};

use crate::counting::Outlook;
use crate::counts::Counts;

// No entries: what stands for an outlook where none is given.
#[derive(Clone, Copy)]
pub struct NothingAhead;

impl Outlook for NothingAhead {
    ghost entries = { λ _. [] };

    ghost few = { Prim.search rules };

    ghost lawful = { Prim.search rules };

    fn count(&self, _units: u32) -> Counts {
        Counts::default()
    }
}
