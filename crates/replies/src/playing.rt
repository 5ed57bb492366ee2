// The replies to a whole script, run by run, for anything that performs runs.
ghost use Rattle.std.specs.Prelude.{◌≡◌, ℕ, List, [], ◌++◌, IfOk, OnOk};
ghost use Rattle.std.specs.declared.option.Option as option;
ghost use Rattle.calls.specs.declared.answer.Answer as answer;
ghost use Rattle.calls.specs.declared.call.Call as call;
ghost use Rattle.model.specs.declared.settings.Settings as opening;
ghost use Rattle.replies.specs.Blocks.{at_first};
ghost use Rattle.replies.specs.Played.{block_answers, played};
ghost use Rattle.replies.specs.Replied.{replies_of};

use crate::block::{block_length, calls_of, first_opening, replies_of};
use crate::reply::Reply;
use crate::standing::{Standing, standing_after};
use calls::{Answer, Call};
use model::Settings;
use scripts::Line;
use std::alloc::{AllocError, Global};
use std::error::Error;
use std::fmt;

// There is no memory for calls, answers or replies.
#[derive(Clone, Copy, PartialEq, Eq, Debug)]
pub struct NoMemory;

impl fmt::Display for NoMemory {
    fn fmt<W: fmt::Write>(&self, f: &mut fmt::Formatter<W>) -> fmt::Result {
        f.write_str("no memory to run the script")
    }
}

impl Error for NoMemory {}

impl From<AllocError> for NoMemory {
    fn from(_e: AllocError) -> NoMemory {
        NoMemory
    }
}

// What performs runs: from the settings of a run, the place of its stair, or none for the curve, and its calls it gives
// their answers.
pub trait Runner {
    ghost answers: { Self → opening.Settings → option.Option ℕ → List call.Call → List answer.Answer };

    // The answers to the calls of a run, or none at all where its opening is refused.
    fn run(
        &self,
        heap: Global,
        settings: &Settings,
        stair: Option<usize>,
        calls: &[Call],
    ) -> Result<Vec<Answer>, NoMemory>
        ensures { IfOk result (λ v. v.items ≡ answers self.now settings.now stair calls.now) };
}

// The answers to the calls of some lines: of the run that the first of them opens, or none.
fn answers_to<R: Runner>(
    heap: Global,
    runner: &R,
    standing: Standing,
    lines: &[Line],
) -> Result<Vec<Answer>, NoMemory>
    ensures { IfOk result (λ v. v.items ≡ block_answers (R.Runner.answers runner.now) standing lines.now) }
{
    let Some(settings) = first_opening(lines) else {
        return Ok(Vec::new(heap));
    };
    let calls = calls_of(heap, lines, standing)?;
    runner.run(heap, &settings, standing.stair, calls.as_slice())
}

// The replies to some lines that begin a block, behind those to the lines before them.
fn add_replies<R: Runner>(
    heap: Global,
    runner: &R,
    standing: Standing,
    lines: &[Line],
    replies: &mut Vec<Reply>,
) -> Result<(), NoMemory>
    ensures { OnOk result (replies.new.items ≡ replies.old.items ++ replies_of lines.now (block_answers (R.Runner.answers runner.now) standing lines.now)) }
{
    let answers = answers_to(heap, runner, standing, lines)?;
    let more = replies_of(heap, lines, answers.as_slice())?;
    replies.extend_from_slice(more.as_slice())?;
    Ok(())
}

// The reply to each line of a script. Each opening is run at once with the calls up to the next one.
pub fn play<R: Runner>(heap: Global, runner: &R, lines: &[Line]) -> Result<Vec<Reply>, NoMemory>
    ensures { IfOk result (λ rs. rs.items ≡ played (R.Runner.answers runner.now) at_first [] lines.now) }
{
    let mut replies = Vec::new(heap);
    let mut standing = Standing::at_first();
    let mut rest = lines;
    // The loop counts no index: each turn takes a block off the lines that are left.
    while !rest.is_empty() {
        let (block, later) = rest.split_at(block_length(rest));
        add_replies(heap, runner, standing, block, &mut replies)?;
        standing = standing_after(block, standing);
        rest = later;
    }
    Ok(replies)
}
