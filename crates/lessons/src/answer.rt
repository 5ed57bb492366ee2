// What a line is answered, and how the answer is written.
use crate::line::Line;
use model::{BitModel, Curve, Refusal, Settings};
use std::fmt;

// An answer.
#[derive(Clone, Copy)]
pub enum Answer {
    // The curve is made.
    Made,
    // The settings are refused: the first question that is answered by no.
    Refused(Refusal),
    // The lesson is learnt.
    Learnt,
    // Predicted bits, or a log quantizer.
    Number(i64),
}

// Makes the curve of the settings; a refusal leaves none.
fn make(curve: &mut Option<Curve>, settings: Settings) -> Answer {
    match Curve::new(&settings) {
        Ok(made) => {
            *curve = Some(made);
            Answer::Made
        }
        Err(refusal) => {
            *curve = None;
            Answer::Refused(refusal)
        }
    }
}

// The answer to a line; `None` if it asks a curve where there is none.
pub fn answer_to(curve: &mut Option<Curve>, line: Line) -> Option<Answer> {
    match line {
        Line::Curve(settings) => Some(make(curve, settings)),
        Line::Predict { subtype, log_q } => {
            Some(Answer::Number(curve.as_ref()?.predict(subtype, log_q)))
        }
        Line::Learn(lesson) => {
            curve.as_mut()?.learn(lesson);
            Some(Answer::Learnt)
        }
        Line::Trim {
            subtype,
            log_q,
            room,
        } => Some(Answer::Number(curve.as_ref()?.trim(subtype, log_q, room))),
    }
}

impl fmt::Display for Answer {
    fn fmt<W: fmt::Write>(&self, f: &mut fmt::Formatter<W>) -> fmt::Result {
        match self {
            Answer::Made => f.write_str("curve ok"),
            Answer::Refused(refusal) => {
                let number = refusal.number();
                write!(f, "curve refused {number}")
            }
            Answer::Learnt => f.write_str("learn ok"),
            Answer::Number(n) => write!(f, "{n}"),
        }
    }
}
