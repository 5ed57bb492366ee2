// A run: a controller is opened, and recorded calls are made of it, one after another.
ghost use Rattle.std.specs.Prelude.{◌≡◌, ℕ, ◌+◌, ◌<◌, ◌≤◌, [], ◌∷◌, ◌++◌, length, vec_len, vec_capacity};
ghost use Rattle.controller.specs.Performing.{answer_to, core_after, model_after};
ghost use Rattle.run.specs.Answers.{answers_to, state_after_all};
ghost use Rattle.run.specs.Runs.{Ran};

use crate::outcome::{Fault, NotRun, Run};
use aim::highest_of;
use calls::{Answer, Call};
use controller::Controller;
use flat::logs_stand;
use model::{BitModel, Settings};
use outlook::Outlook;
use search::hunts_stand;
use std::alloc::Global;

// Makes one call, and puts its answer behind the answers so far.
fn perform_next<M: BitModel, O: Outlook>(
    controller: &mut Controller<M>,
    outlooks: &[O],
    call: Call,
    answers: &mut Vec<Answer>,
)
    requires room { vec_len answers.old < vec_capacity answers.old }
    ensures answers { answers.new.items ≡ answers.old.items ++ answer_to M.meaning O.entries outlooks.now controller.old.core controller.old.model call ∷ [] }
    ensures len { vec_len answers.new ≡ vec_len answers.old + 1 }
    ensures room { vec_capacity answers.new ≡ vec_capacity answers.old }
    ensures core { controller.new.core ≡ core_after M.meaning O.entries outlooks.now controller.old.core controller.old.model call }
    ensures model { controller.new.model ≡ model_after M.meaning O.entries outlooks.now controller.old.core controller.old.model call }
{
    let answer = controller.perform(outlooks, call);
    answers.push_reserved(answer);
}

// Makes the calls, one after another.
fn perform_all<M: BitModel, O: Outlook>(
    controller: &mut Controller<M>,
    outlooks: &[O],
    calls: &[Call],
    answers: &mut Vec<Answer>,
)
    requires none { answers.old.items ≡ [] }
    requires len { vec_len answers.old ≡ 0 }
    requires room { length calls.now ≤ vec_capacity answers.old }
    ensures answers { answers.new.items ≡ answers_to M.meaning O.entries outlooks.now (record { core = controller.old.core; model = controller.old.model }) calls.now }
    ensures core { controller.new.core ≡ (state_after_all M.meaning O.entries outlooks.now (record { core = controller.old.core; model = controller.old.model }) calls.now).core }
    ensures model { controller.new.model ≡ (state_after_all M.meaning O.entries outlooks.now (record { core = controller.old.core; model = controller.old.model }) calls.now).model }
{
    for call in calls {
        perform_next(controller, outlooks, *call, answers);
    }
}

// Opens a controller with the settings and makes the calls of it, in their order. A choice names its outlook by the place
// in `outlooks`, and a place outside it stands for no entries. A call that is refused is answered by that, and the next
// one is made. Nothing is required: for any settings, model, outlooks and calls the run answers as the rules say, and the
// history of calls and answers is lawful. Where memory for the answers is wanting, or the settings are refused, no call
// is made and the model comes back.
pub fn run<M: BitModel, O: Outlook>(
    heap: Global,
    settings: &Settings,
    model: M,
    outlooks: &[O],
    calls: &[Call],
) -> Result<Run<M>, NotRun<M>>
    ensures { Ran M.meaning O.entries outlooks.now settings.now model calls.now result }
{
    let Ok(mut answers) = Vec::with_capacity(heap, calls.len()) else {
        return Err(NotRun {
            fault: Fault::Memory,
            model,
        });
    };
    let mut controller = Controller::open(settings, model)?;
    // What the laws of choices rest on.
    hunts_stand();
    logs_stand();
    highest_of(settings.highest);
    perform_all(&mut controller, outlooks, calls, &mut answers);
    Ok(Run {
        controller,
        answers,
    })
}
