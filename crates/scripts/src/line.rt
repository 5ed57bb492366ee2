// One line of a script, and the lines that their words alone make.
ghost use Rattle.std.specs.Prelude.{◌≡◌};
ghost use Rattle.std.specs.Result.{result_ok};
ghost use Rattle.operands.specs.Line.{words_of};
ghost use Rattle.scripts.specs.Said.{alone, opening, opened, choice, trial, report, withdrawal, said};

use model::Settings;
use operands::{Malformed, Operands};

// A line of a script. One that makes an outlook or a stair tells its place among those of the script, or why it was
// refused. Subtypes and samplings are numbers as they were written: bad ones are for the calls to refuse. The calls
// stand here as cases of their own, and not as recorded ones, since a line does not say which outlook its choice sees.
#[derive(Clone, Copy)]
pub enum Line {
    // The curve is the model of the openings that follow.
    Curve,
    // A stair is, unless it is refused.
    Stair(Result<usize, stair::Refusal>),
    // A list is the outlook of the choices that follow, unless it is refused.
    List(Result<usize, outlook::Refusal>),
    // A pattern is, unless it is refused.
    Pattern(Result<usize, outlook::Refusal>),
    // A run begins.
    Open(Settings),
    // The calls of the run.
    Choose {
        subtype: u8,
        previous: Option<i64>,
        mean: i64,
    },
    Trial {
        ticket: u64,
        bits: u32,
    },
    Report {
        ticket: u64,
        bits: u32,
        shown: bool,
        droppable: bool,
    },
    Withdraw {
        ticket: u64,
    },
    Show,
    Status,
}

// A line that is its name alone.
fn alone<'a>(words: Operands<'_, 'a>, line: Line) -> Result<Line, Malformed<'a>>
    ensures { result_ok result ≡ alone line (words_of words.entry) }
{
    words.takes(0, "")?;
    Ok(line)
}

fn settings_of<'a>(words: Operands<'_, 'a>) -> Result<Settings, Malformed<'a>>
    ensures { result_ok result ≡ opening (words_of words.entry) }
{
    words.takes(
        12,
        "WIDTH HEIGHT NUM DEN BITRATE DEPTH SAMPLING LOWEST HIGHEST INTERVAL DELAY DROPPING",
    )?;
    Ok(Settings {
        width: words.at(1)?,
        height: words.at(2)?,
        numerator: words.at(3)?,
        denominator: words.at(4)?,
        bitrate: words.at(5)?,
        depth: words.at(6)?,
        sampling: words.at(7)?,
        lowest: words.at(8)?,
        highest: words.at(9)?,
        interval: words.at(10)?,
        delay: words.at(11)?,
        dropping: words.at(12)?,
    })
}

fn open<'a>(words: Operands<'_, 'a>) -> Result<Line, Malformed<'a>>
    ensures { result_ok result ≡ opened (words_of words.entry) }
{
    Ok(Line::Open(settings_of(words)?))
}

fn choose<'a>(words: Operands<'_, 'a>) -> Result<Line, Malformed<'a>>
    ensures { result_ok result ≡ choice (words_of words.entry) }
{
    words.takes(3, "SUBTYPE PREVIOUS MEAN")?;
    Ok(Line::Choose {
        subtype: words.at(1)?,
        previous: words.at(2)?,
        mean: words.at(3)?,
    })
}

fn trial<'a>(words: Operands<'_, 'a>) -> Result<Line, Malformed<'a>>
    ensures { result_ok result ≡ trial (words_of words.entry) }
{
    words.takes(2, "TICKET BITS")?;
    Ok(Line::Trial {
        ticket: words.at(1)?,
        bits: words.at(2)?,
    })
}

fn report<'a>(words: Operands<'_, 'a>) -> Result<Line, Malformed<'a>>
    ensures { result_ok result ≡ report (words_of words.entry) }
{
    words.takes(4, "TICKET BITS SHOWN DROPPABLE")?;
    Ok(Line::Report {
        ticket: words.at(1)?,
        bits: words.at(2)?,
        shown: words.at(3)?,
        droppable: words.at(4)?,
    })
}

fn withdraw<'a>(words: Operands<'_, 'a>) -> Result<Line, Malformed<'a>>
    ensures { result_ok result ≡ withdrawal (words_of words.entry) }
{
    words.takes(1, "TICKET")?;
    Ok(Line::Withdraw {
        ticket: words.at(1)?,
    })
}

// The line that the words make, or the first thing that is wrong with them: the name, then the count of operands,
// then each operand in order. Lines that make an outlook or a stair are none of these.
pub(crate) fn line_of<'a>(words: Operands<'_, 'a>) -> Result<Line, Malformed<'a>>
    ensures { result_ok result ≡ said (words_of words.entry) }
{
    match words.name() {
        "curve" => alone(words, Line::Curve),
        "open" => open(words),
        "choose" => choose(words),
        "trial" => trial(words),
        "report" => report(words),
        "withdraw" => withdraw(words),
        "show" => alone(words, Line::Show),
        "status" => alone(words, Line::Status),
        _ => Err(words.unknown("line")),
    }
}
