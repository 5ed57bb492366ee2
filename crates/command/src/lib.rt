// A program that answers what it reads from standard input, or prints its help. Only its `main` names
// the whole runtime.
#![tactic(auto)]

ghost use Rattle.std.specs.Prelude.{◌≡◌, IfOk};
ghost use Rattle.std.specs.Process.{exit_status};
ghost use Rattle.command.specs.declared.NoTask.TheVariants.{NotRead};

use std::alloc::Global;
use std::io::Read;
use std::process::ExitCode;
use std::rt::Env;
use std::{env, fmt, io};

// What such a program is.
pub trait Program {
    // Its name, which stands before all that it tells on standard error.
    const NAME: &'static str;

    // What it prints for `--help`.
    const HELP: &'static str;

    // Answers all that standard input held, and tells the status to end with.
    fn answer<R: Print + Eprint + AllocGlobal>(rt: &R, bytes: &[u8]) -> anyhow::Result<ExitCode>;
}

// What the arguments ask for.
#[derive(Clone, Copy)]
enum Task {
    Answer,
    Help,
}

// Why the arguments ask for nothing.
#[derive(Drop)]
enum NoTask {
    Unknown(String),
    NotRead(io::Error),
}

impl From<io::Error> for NoTask {
    ghost from_gives = { λ e why. why ≡ NotRead e };

    fn from(e: io::Error) -> NoTask {
        NoTask::NotRead(e)
    }
}

impl fmt::Display for NoTask {
    fn fmt<W: fmt::Write>(&self, f: &mut fmt::Formatter<W>) -> fmt::Result {
        match self {
            NoTask::Unknown(argument) => { write!(f, "unknown argument '{argument}' (try --help)") }
            NoTask::NotRead(e) => write!(f, "{e}"),
        }
    }
}

fn task_of<R: Env + AllocGlobal>(rt: &R) -> Result<Task, NoTask> {
    let mut task = Task::Answer;
    for argument in env::args(rt)?.skip(1) {
        if argument.as_str() != "--help" {
            return Err(NoTask::Unknown(argument));
        }
        task = Task::Help;
    }
    Ok(task)
}

// Tells what stopped the program of a name, and ends it with status 1.
pub fn stop<R: Eprint, D: fmt::Display>(rt: &R, name: &str, why: &D) -> anyhow::Result<ExitCode>
    ensures { IfOk result (λ code. exit_status code ≡ 1) }
{
    eprintln!(rt; "{name}: {why}")?;
    Ok(ExitCode::FAILURE)
}

fn answer_input<P: Program, R: Input + Print + Eprint + AllocGlobal>(
    rt: &R,
) -> anyhow::Result<ExitCode> {
    let mut bytes = Vec::new(rt.alloc());
    rt.reader().read_to_end(&mut bytes)?;
    P::answer(rt, bytes.as_slice())
}

fn work<P: Program, R: Env + Input + Print + Eprint + AllocGlobal>(
    rt: &R,
) -> anyhow::Result<ExitCode> {
    match task_of(rt) {
        Ok(Task::Answer) => answer_input::<P, R>(rt),
        Ok(Task::Help) => {
            rt.print(P::HELP)?;
            Ok(ExitCode::SUCCESS)
        }
        Err(e) => stop(rt, P::NAME, &e),
    }
}

// Does what the arguments ask for: answers standard input where there are none, prints the help for
// `--help`, and refuses any other. What stops it is told on standard error.
pub fn run<P: Program, R: Env + Input + Print + Eprint + AllocGlobal>(
    rt: &R,
) -> anyhow::Result<ExitCode> {
    match work::<P, R>(rt) {
        Ok(code) => Ok(code),
        Err(e) => stop(rt, P::NAME, &e),
    }
}
