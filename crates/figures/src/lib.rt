// The worked figures, all in one list.
#![tactic(auto)]

ghost use Rattle.std.specs.Prelude.{◌≡◌};
ghost use Rattle.figures.specs.Figures.{Figures};

use model::BitModel;
use outlook::Outlook;

// How many worked figures there are.
const FIGURES: u8 = 12;

// The worked figures hold of the definitions that the contracts cite, whatever the model and the outlooks: their number.
pub fn figures_stand<M: BitModel, O: Outlook>() -> u8
    ensures count { result ≡ 12 }
    ensures hold { Figures M.meaning O.entries }
{
    FIGURES
}
