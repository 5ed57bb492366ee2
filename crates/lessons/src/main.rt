// A test program, not for users: it makes curves, teaches them and asks them as the lines of standard input say, and
// prints one answer for each. A line that is none of `line` ends it. It rests on `model`, `words` and `operands`.
#![tactic(auto)]

mod answer;
mod line;

use answer::{Answer, answer_to};
use anyhow::anyhow;
use line::line_of;
use model::Curve;
use operands::Operands;
use std::alloc::Global;
use std::io::{BufWriter, Read, Write};
use std::process::ExitCode;
use words::{lines_of, text_of, words_of};

// The answer to one line; none if it has no words.
fn answered(heap: Global, curve: &mut Option<Curve>, line: &str) -> anyhow::Result<Option<Answer>> {
    let words = words_of(heap, line)?;
    if words.is_empty() {
        return Ok(None);
    }
    let said = line_of(Operands::new(words.as_slice())).ok();
    match said.and_then(|said| answer_to(curve, said)) {
        Some(answer) => Ok(Some(answer)),
        None => Err(anyhow!("a line is malformed, or there is no curve yet")),
    }
}

// Answers the lines in their order, up to the first that cannot be.
fn answer_all(rt: &HostRuntime, lines: &[&str]) -> anyhow::Result<()> {
    let mut curve: Option<Curve> = None;
    let mut out = BufWriter::new(rt.alloc(), rt.stdout())?;
    for line in lines {
        if let Some(answer) = answered(rt.alloc(), &mut curve, *line)? {
            writeln!(out, "{answer}")?;
        }
    }
    out.flush()?;
    Ok(())
}

fn work(rt: &HostRuntime) -> anyhow::Result<()> {
    let heap = rt.alloc();
    let mut bytes = Vec::new(heap);
    rt.stdin().read_to_end(&mut bytes)?;
    match text_of(bytes.as_slice()) {
        Ok(text) => answer_all(rt, lines_of(heap, text)?.as_slice()),
        Err(e) => {
            answer_all(rt, lines_of(heap, e.before)?.as_slice())?;
            Err(e.into())
        }
    }
}

fn main(rt: HostRuntime) -> anyhow::Result<ExitCode> {
    match work(&rt) {
        Ok(()) => Ok(ExitCode::SUCCESS),
        Err(e) => {
            eprintln!(rt; "lessons: {e}")?;
            Ok(ExitCode::FAILURE)
        }
    }
}
