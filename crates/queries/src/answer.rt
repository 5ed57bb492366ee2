// What a question is answered, and how the answer is written.
ghost use Rattle.std.specs.Prelude.{◌≡◌};
ghost use Rattle.queries.specs.Told.{told, answer_text, outcome_text};

use crate::query::Query;
use logexp::{bexp64, blog64};
use quantize::{QuantizerParameters, Refusal, q, select_qi};
use std::fmt;

// The answer to a question that is not refused.
#[derive(Clone, Copy)]
pub enum Answer {
    // A logarithm or an exponential.
    Log(i64),
    // An entry of a table.
    Entry(u16),
    // An index into a table.
    Index(u8),
    // The indexes and scales of a frame.
    Parameters(QuantizerParameters),
}

// The answer to a question, or its refusal. A bad depth is refused before a bad sampling.
pub fn answer_to(query: Query) -> Result<Answer, Refusal>
    ensures { result ≡ told query }
{
    match query {
        Query::Blog64(n) => Ok(Answer::Log(blog64(n))),
        Query::Bexp64(x) => Ok(Answer::Log(bexp64(x))),
        Query::Q {
            coefficient,
            depth,
            index,
        } => Ok(Answer::Entry(q(coefficient, index, depth)?)),
        Query::SelectQi {
            coefficient,
            depth,
            q,
        } => Ok(Answer::Index(select_qi(coefficient, q, depth)?)),
        Query::Quantizer {
            log_q,
            depth,
            sampling,
            is_intra,
            mean,
        } => Ok(Answer::Parameters(QuantizerParameters::new_from_log_q(
            log_q, log_q, depth, sampling, is_intra, mean,
        )?)),
    }
}

impl fmt::Display for Answer {
    ghost output = { answer_text };

    fn fmt<W: fmt::Write>(&self, f: &mut fmt::Formatter<W>) -> fmt::Result {
        match self {
            Answer::Log(n) => write!(f, "{n}"),
            Answer::Entry(n) => write!(f, "{n}"),
            Answer::Index(n) => write!(f, "{n}"),
            Answer::Parameters(parameters) => write!(f, "{parameters}"),
        }
    }
}

// What is printed for a question: its answer, or `refused` and the number of the refusal.
#[derive(Clone, Copy)]
pub struct Outcome(pub Result<Answer, Refusal>);

impl fmt::Display for Outcome {
    ghost output = { λ outcome. outcome_text outcome.0 };

    fn fmt<W: fmt::Write>(&self, f: &mut fmt::Formatter<W>) -> fmt::Result {
        match self.0 {
            Ok(answer) => write!(f, "{answer}"),
            Err(refusal) => {
                let number = refusal.number();
                write!(f, "refused {number}")
            }
        }
    }
}
