// What comes of a run.
ghost use Rattle.std.specs.Prelude.{◌≡◌};
ghost use Rattle.run.specs.declared.outcome.Fault.TheVariants.{Opening};

use calls::Answer;
use controller::{Controller, Unopened};
use model::Refusal;

// A run that was performed: its controller as the last call left it, and the answers to the calls.
#[derive(Drop)]
pub struct Run<M> {
    pub controller: Controller<M>,
    pub answers: Vec<Answer>,
}

// Why no call was made.
#[derive(Clone, Copy)]
pub enum Fault {
    // The settings were refused.
    Opening(Refusal),
    // There was no memory for the answers.
    Memory,
}

// A run that was not performed: why, and the model that was handed in.
#[derive(Drop)]
pub struct NotRun<M> {
    pub fault: Fault,
    pub model: M,
}

// A controller that was not opened makes no run.
impl<M> From<Unopened<M>> for NotRun<M> {
    ghost from_gives = { λ u n. n ≡ record { fault = Opening u.refusal; model = u.model } };

    fn from(unopened: Unopened<M>) -> NotRun<M> {
        let Unopened { refusal, model } = unopened;
        NotRun {
            fault: Fault::Opening(refusal),
            model,
        }
    }
}
