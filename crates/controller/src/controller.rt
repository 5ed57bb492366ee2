// The controller, and what always holds of it. The struct stands apart from its calls, since its facts are part of it.
ghost use Rattle.controller.specs.Soundness.{Sound};

use crate::state::Core;
use model::Refusal;

// A rate controller over any bit model, which it holds by value beside a plain core.
#[derive(Drop)]
pub struct Controller<M> {
    pub(crate) model: M,
    pub(crate) core: Core,
    ghost sound: { Sound core },
}

// A controller that was not opened: why, and the model that was handed in.
#[derive(Drop)]
pub struct Unopened<M> {
    pub refusal: Refusal,
    pub model: M,
}
