// Opening a controller.
ghost use Rattle.std.specs.Prelude.{◌≡◌, true};
ghost use Rattle.model.specs.Opening.{Sound as SoundFigures};
ghost use Rattle.model.specs.Tests.{lawful_highest};
ghost use Rattle.controller.specs.Opening.{profile_of, reservoir_of, fresh_core, opened, opening_view};
ghost use Rattle.controller.specs.Soundness.{Sound};

use crate::controller::{Controller, Unopened};
use crate::state::{Core, Profile, Reservoir};
use model::{Accepted, BitModel, Settings};

// What stays as it is opened.
fn profile_of(accepted: Accepted) -> Profile
    ensures { result ≡ profile_of accepted }
{
    Profile {
        depth: accepted.depth,
        sampling: accepted.sampling,
        lowest: accepted.lowest,
        highest: accepted.highest,
        delay: accepted.delay,
        dropping: accepted.dropping,
    }
}

// The reservoir, at its target.
fn reservoir_of(accepted: Accepted) -> Reservoir
    ensures { result ≡ reservoir_of accepted }
{
    Reservoir {
        fullness: accepted.target,
        credit: accepted.credit,
        limit: accepted.limit,
        target: accepted.target,
    }
}

impl Core {
    // The core that accepted figures open with.
    fn fresh(accepted: Accepted) -> Core
        requires figures { SoundFigures accepted }
        requires ordered { lawful_highest accepted.lowest accepted.highest ≡ true }
        ensures value { result ≡ fresh_core accepted }
        ensures sound { Sound result }
    {
        Core {
            profile: profile_of(accepted),
            reservoir: reservoir_of(accepted),
            rate_bias: 0,
            accepted: 0,
            coded: 0,
            reports: [0, 0, 0, 0],
            choices: 0,
            out: None,
        }
    }
}

impl<M: BitModel> Controller<M> {
    // A controller with these settings over a model in any state. Refused: the first of the eight questions put to the
    // settings that is answered by no (1 to 8); the model then comes back.
    pub fn open(settings: &Settings, model: M) -> Result<Controller<M>, Unopened<M>>
        ensures { opening_view result ≡ (opened settings.now, model) }
    {
        match settings.accept() {
            Ok(accepted) => Ok(Controller {
                model,
                core: Core::fresh(accepted),
            }),
            Err(refusal) => Err(Unopened { refusal, model }),
        }
    }
}
