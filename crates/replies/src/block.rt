// The runs of a script: an opening and the lines up to the next one, the calls that they make, and their replies.
ghost use Rattle.std.specs.Prelude.{◌≡◌, ◌<◌, ◌≤◌, [], ◌++◌, length, IfOk, OnOk};
ghost use Rattle.std.specs.List.{position};
ghost use Rattle.std.specs.Option.{option_to_list};
ghost use Rattle.std.specs.Slice.Iter.{iter_rest};
ghost use Rattle.replies.specs.Blocks.{opening_of, opens, first_opening, block_length, call_of, calls_of};
ghost use Rattle.replies.specs.Replied.{left, next_answer, replies_of};

use crate::reply::{Reply, reply_to};
use crate::standing::{Standing, call_of};
use calls::{Answer, Call};
use model::Settings;
use scripts::Line;
use std::alloc::{AllocError, Global};
use std::slice::Iter;

// The settings of a line that opens a run.
fn opening_of(line: Line) -> Option<Settings>
    ensures { result ≡ opening_of line }
{
    match line {
        Line::Open(settings) => Some(settings),
        _ => None,
    }
}

// Whether a line opens a run.
fn opens(line: Line) -> bool
    ensures { result ≡ opens line }
{
    opening_of(line).is_some()
}

// The settings of the run that some lines open, if the first of them opens one.
pub(crate) fn first_opening(lines: &[Line]) -> Option<Settings>
    ensures { result ≡ first_opening lines.now }
{
    lines.first().and_then(|line| opening_of(*line))
}

// The place of the first line that opens a run, if there is one.
fn next_opening(lines: &[Line]) -> Option<usize>
    ensures { result ≡ position opens lines.now }
{
    lines.iter().position(|line| opens(*line))
}

// How many lines the first line and what belongs to it are: all up to the next opening. No lines are none.
pub fn block_length(lines: &[Line]) -> usize
    ensures value { result ≡ block_length lines.now }
    ensures within { result ≤ length lines.now }
    ensures some { 0 < length lines.now → 0 < result }
{
    match lines.split_first() {
        Some((_, later)) => 1 + next_opening(later).unwrap_or(later.len()),
        None => 0,
    }
}

// Puts a call, if there is one, behind the others.
fn add_call(calls: &mut Vec<Call>, call: Option<Call>) -> Result<(), AllocError>
    ensures { OnOk result (calls.new.items ≡ calls.old.items ++ option_to_list call) }
{
    if let Some(call) = call {
        calls.push(call)?;
    }
    Ok(())
}

// The calls that some lines make, in order. It refuses only for want of memory.
pub fn calls_of(heap: Global, lines: &[Line], first: Standing) -> Result<Vec<Call>, AllocError>
    ensures { IfOk result (λ cs. cs.items ≡ calls_of first lines.now) }
{
    let mut calls = Vec::new(heap);
    let mut standing = first;
    for line in lines {
        add_call(&mut calls, call_of(*line, standing.outlook))?;
        standing = standing.after(*line);
    }
    Ok(calls)
}

// The answer that a line takes: the next one, if the line makes a call and there is one.
fn next_answer(line: Line, answers: &mut Iter<'_, Answer>) -> Option<Answer>
    ensures value { result ≡ next_answer line (iter_rest answers.old) }
    ensures left { iter_rest answers.new ≡ left (call_of None line) (iter_rest answers.old) }
{
    call_of(line, None)?;
    answers.next().copied()
}

// What each of some lines is replied, where their calls had these answers. It refuses only for want of memory.
pub fn replies_of(
    heap: Global,
    lines: &[Line],
    answers: &[Answer],
) -> Result<Vec<Reply>, AllocError>
    ensures { IfOk result (λ rs. rs.items ≡ replies_of lines.now answers.now) }
{
    let mut replies = Vec::new(heap);
    let mut left = answers.iter();
    for line in lines {
        let answer = next_answer(*line, &mut left);
        replies.push(reply_to(*line, answer))?;
    }
    Ok(replies)
}
