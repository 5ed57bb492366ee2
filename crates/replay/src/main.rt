// Replays a script of calls from standard input, and writes a line for each of its lines to standard output. What is
// read is `scripts`, what is run is `run`, what is written is `replies`, and what a program does is `command`; here
// they are only put together.
#![tactic(auto)]

mod player;

use command::{Program, run, stop};
use player::Player;
use replies::{Reply, play};
use scripts::{Script, script_of};
use std::io;
use std::io::{BufWriter, Write};
use std::process::ExitCode;

const NAME: &str = "replay";

const HELP: &str =
    "replay: reads a script of calls of the rate control from standard input, and tells what each comes to.

  open WIDTH HEIGHT NUM DEN BITRATE DEPTH SAMPLING LOWEST HIGHEST INTERVAL DELAY DROPPING
                              begins a run; HIGHEST and DELAY may be -, DROPPING is 0 or 1
  choose SUBTYPE PREVIOUS MEAN          the quantizer of the next frame; PREVIOUS may be -
  trial TICKET BITS                     the frame was coded on trial
  report TICKET BITS SHOWN DROPPABLE    the frame was coded; marks are 0 or 1
  withdraw TICKET                       the frame is not coded
  show                                  an existing frame is shown
  status                                what the run holds
  curve  |  stair C0 ... C255           the model of the next open: at first the curve
  list B ...  |  pattern B ...          the outlook of the choices that follow: at first nothing

SUBTYPE is 0 I, 1 P, 2 B0, 3 B1; SAMPLING is 0 4:2:0, 1 4:2:2, 2 4:4:4, 3 monochrome. A byte B of an outlook is a
subtype, or 4 for the show of an existing frame, and 8 more where the frame is shown.
Replies begin with the line's first word: its figures as NAME=VALUE, 'ok', 'refused N' with the number of the question,
or 'closed' for a call while no run is open. Logs have 2^57 steps to a doubling.
'#' cuts off the rest of a line, and empty lines are passed over. A malformed line ends the program with status 1 before
anything is run; standard error then says which and why.
";

// The program.
struct Replay;

impl Program for Replay {
    const NAME: &'static str = NAME;

    const HELP: &'static str = HELP;

    fn answer<R: Print + Eprint + AllocGlobal>(rt: &R, bytes: &[u8]) -> anyhow::Result<ExitCode> {
        match script_of(rt.alloc(), bytes) {
            Ok(script) => {
                replay_script(rt, &script)?;
                Ok(ExitCode::SUCCESS)
            }
            Err(wrong) => stop(rt, NAME, &wrong),
        }
    }
}

fn write_all<R: Print + AllocGlobal>(rt: &R, replies: &[Reply]) -> io::Result<()> {
    let mut out = BufWriter::new(rt.alloc(), io::writer(rt))?;
    for reply in replies {
        writeln!(out, "{reply}")?;
    }
    out.flush()
}

fn replay_script<R: Print + AllocGlobal>(rt: &R, script: &Script) -> anyhow::Result<()> {
    let replies = play(rt.alloc(), &Player { script }, script.lines.as_slice())?;
    write_all(rt, replies.as_slice())?;
    Ok(())
}

fn main(rt: HostRuntime) -> anyhow::Result<ExitCode> {
    run::<Replay, HostRuntime>(&rt)
}
