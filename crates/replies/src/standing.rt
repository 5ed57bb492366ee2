// What stands at a line of a script: which outlook its choices see, and which model its openings take.
ghost use Rattle.std.specs.Prelude.{◌≡◌};
ghost use Rattle.replies.specs.Blocks.{at_first, after, call_of, stands};

use calls::Call;
use scripts::Line;

// The place of the outlook among those of the script, or none for an empty one; and the place of the stair among the
// stairs, or none for the curve.
#[derive(Clone, Copy, Debug, PartialEq, Eq)]
pub struct Standing {
    pub outlook: Option<usize>,
    pub stair: Option<usize>,
}

// The place that a recorded choice names where no outlook stands: no script has an outlook there. A rule asks for it,
// since a recorded call names its outlook by a place in every case, and a place outside a list stands for no entries.
const NO_OUTLOOK: usize = usize::MAX;

impl Standing {
    // What stands at the first line: nothing ahead, and the curve.
    pub fn at_first() -> Standing
        ensures { result ≡ at_first }
    {
        Standing {
            outlook: None,
            stair: None,
        }
    }

    // What stands after a line. An outlook or a stair that was refused changes nothing.
    pub fn after(self, line: Line) -> Standing
        ensures { result ≡ after self line }
    {
        match line {
            Line::Curve => Standing {
                stair: None,
                ..self
            },
            Line::Stair(Ok(place)) => Standing {
                stair: Some(place),
                ..self
            },
            Line::List(Ok(place)) | Line::Pattern(Ok(place)) => Standing {
                outlook: Some(place),
                ..self
            },
            _ => self,
        }
    }
}

// The call that a line makes where an outlook stands, if it makes one. An opening asks for the status.
pub fn call_of(line: Line, outlook: Option<usize>) -> Option<Call>
    ensures { result ≡ call_of outlook line }
{
    match line {
        Line::Choose {
            subtype,
            previous,
            mean,
        } => Some(Call::Choose {
            subtype,
            outlook: outlook.unwrap_or(NO_OUTLOOK),
            previous,
            log_isqrt_mean_scale: mean,
        }),
        Line::Trial { ticket, bits } => Some(Call::Trial { ticket, bits }),
        Line::Report {
            ticket,
            bits,
            shown,
            droppable,
        } => Some(Call::Report {
            ticket,
            bits,
            shown,
            droppable,
        }),
        Line::Withdraw { ticket } => Some(Call::Withdraw { ticket }),
        Line::Show => Some(Call::Show),
        Line::Status | Line::Open(_) => Some(Call::Status),
        Line::Curve | Line::Stair(_) | Line::List(_) | Line::Pattern(_) => None,
    }
}

// What stands after some lines.
pub fn standing_after(lines: &[Line], first: Standing) -> Standing
    ensures { result ≡ stands first lines.now }
{
    lines
        .iter()
        .fold(first, |standing, line| standing.after(*line))
}
