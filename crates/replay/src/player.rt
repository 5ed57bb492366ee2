// Performs the runs of a script, with its outlooks and its stairs.
ghost use Rattle.std.specs.Prelude.{◌≡◌, IfOk};
ghost use Rattle.replay.specs.Answers.{run_answers, stair_at, model_answers};

use calls::{Answer, Call};
use model::{BitModel, Curve, Settings};
use outlook::Known;
use replies::{NoMemory, Runner};
use run::{Fault, NotRun, Run, run};
use scripts::Script;
use stair::Stair;
use std::alloc::Global;

// The script whose runs are performed.
#[derive(Clone, Copy)]
pub struct Player<'a> {
    pub script: &'a Script,
}

// The answers of a run with a model; none where its opening is refused.
fn answers_by<M: BitModel + Drop>(
    heap: Global,
    settings: &Settings,
    model: M,
    outlooks: &[Known],
    calls: &[Call],
) -> Result<Vec<Answer>, NoMemory>
    ensures { IfOk result (λ v. v.items ≡ run_answers M.meaning outlooks.now model calls.now settings.now) }
{
    match run(heap, settings, model, outlooks, calls) {
        Ok(Run { answers, .. }) => Ok(answers),
        Err(NotRun { fault, .. }) => match fault {
            Fault::Opening(_) => Ok(Vec::new(heap)),
            Fault::Memory => Err(NoMemory),
        },
    }
}

// The stair at a place, if there is one.
fn stair_at(stairs: &[Stair], place: Option<usize>) -> Option<Stair>
    ensures { result ≡ stair_at stairs.now place }
{
    stairs.get(place?).copied()
}

impl Runner for Player<'_> {
    ghost answers = { λ p s k cs. model_answers (stair_at p.script.now.stairs.items k) p.script.now.outlooks.items s cs };

    fn run(
        &self,
        heap: Global,
        settings: &Settings,
        stair: Option<usize>,
        calls: &[Call],
    ) -> Result<Vec<Answer>, NoMemory> {
        let outlooks = self.script.outlooks.as_slice();
        if let Some(stair) = stair_at(self.script.stairs.as_slice(), stair) {
            return answers_by(heap, settings, stair, outlooks, calls);
        }
        let Ok(curve) = Curve::new(settings) else {
            return Ok(Vec::new(heap));
        };
        answers_by(heap, settings, curve, outlooks, calls)
    }
}
