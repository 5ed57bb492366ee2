// Answers questions about logarithms and quantizers, one to a line, from standard input to
// standard output. What is read and answered is `queries`, and what a program does is `command`; here
// they are only put together.
#![tactic(auto)]

use command::{Program, run, stop};
use queries::{Outcome, Query, answer_to, queries};
use std::io;
use std::io::{BufWriter, Write};
use std::process::ExitCode;

const NAME: &str = "qindex";

const HELP: &str =
    "qindex: reads questions from standard input, one to a line, and answers each on a line.

  blog64 N                    binary logarithm of N, 2^57 steps to a doubling; -1 for N below 1
  bexp64 X                    binary exponential of such a logarithm
  ac_q DEPTH INDEX            AV1's AC entry of an index at a bit depth
  dc_q DEPTH INDEX            AV1's DC entry
  select_ac_qi DEPTH Q        the index that stands for Q in the AC table: the nearest by ratio
  select_dc_qi DEPTH Q        the same in the DC table
  quantizer LOG_Q DEPTH SAMPLING INTRA MEAN
                              the indexes and plane scales of a frame

DEPTH (8, 10, 12), INDEX and SAMPLING (0 4:2:0, 1 4:2:2, 2 4:4:4, 3 monochrome) are 0 to 255,
INTRA is 0 or 1, the others are whole numbers of 64 bits with a sign.
Answers: a number; 'dc=A,B,C ac=A,B,C scales=X' or 'scales=X,Y,Z' for quantizer;
'refused 4' for a depth and 'refused 5' for a sampling that AV1 lacks.
'#' cuts off the rest of a line, and empty lines are passed over. A malformed line ends the
program with status 1 before anything is answered; standard error then says which and why.
";

// The program.
struct Qindex;

impl Program for Qindex {
    const NAME: &'static str = NAME;

    const HELP: &'static str = HELP;

    fn answer<R: Print + Eprint + AllocGlobal>(rt: &R, bytes: &[u8]) -> anyhow::Result<ExitCode> {
        match queries(rt.alloc(), bytes) {
            Ok(all) => {
                answer_all(rt, all.as_slice())?;
                Ok(ExitCode::SUCCESS)
            }
            Err(wrong) => stop(rt, NAME, &wrong),
        }
    }
}

// Each question is answered as its line is written: a function that `replay` could share would take that as a closure, and
// be no plainer.
fn answer_all<R: Print + AllocGlobal>(rt: &R, all: &[Query]) -> io::Result<()> {
    let mut out = BufWriter::new(rt.alloc(), io::writer(rt))?;
    for query in all {
        let outcome = Outcome(answer_to(*query));
        writeln!(out, "{outcome}")?;
    }
    out.flush()
}

fn main(rt: HostRuntime) -> anyhow::Result<ExitCode> {
    run::<Qindex, HostRuntime>(&rt)
}
