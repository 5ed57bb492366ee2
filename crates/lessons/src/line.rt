// What a line says, and its words. Operands are parted by white space, `-` stands for an absent one:
//
//   curve WIDTH HEIGHT NUMERATOR DENOMINATOR BITRATE DEPTH SAMPLING LOWEST HIGHEST INTERVAL DELAY DROPPING
//   predict SUBTYPE LOG_Q
//   learn SUBTYPE BITS LOG_Q TRIAL REPORTS
//   trim SUBTYPE LOG_Q FULLNESS CREDIT LIMIT HIGHEST
//
// HIGHEST and DELAY of `curve` may be absent; DROPPING, TRIAL and HIGHEST of `trim` are 0 or 1.
use model::{Lesson, Room, Settings};
use operands::{Malformed, Operands};

// A call of the curve model, or the making of a curve. Subtypes are numbers, as the model takes them.
#[derive(Clone, Copy)]
pub enum Line {
    // The curve that the following lines are about.
    Curve(Settings),
    // Asks for predicted bits.
    Predict { subtype: u8, log_q: i64 },
    // Teaches the bits of a frame.
    Learn(Lesson),
    // Asks for the log quantizer in place of one.
    Trim { subtype: u8, log_q: i64, room: Room },
}

// The operands are those of `open` in a script. They stand here too, since this program does not rest on `scripts`, and
// one function for both would be public there for it alone.
fn curve<'a>(words: Operands<'_, 'a>) -> Result<Line, Malformed<'a>> {
    words.takes(
        12,
        "WIDTH HEIGHT NUMERATOR DENOMINATOR BITRATE DEPTH SAMPLING LOWEST HIGHEST INTERVAL DELAY DROPPING",
    )?;
    Ok(Line::Curve(Settings {
        width: words.at(1)?,
        height: words.at(2)?,
        numerator: words.at(3)?,
        denominator: words.at(4)?,
        bitrate: words.at(5)?,
        depth: words.at(6)?,
        sampling: words.at(7)?,
        lowest: words.at(8)?,
        highest: words.at(9)?,
        interval: words.at(10)?,
        delay: words.at(11)?,
        dropping: words.at(12)?,
    }))
}

fn predict<'a>(words: Operands<'_, 'a>) -> Result<Line, Malformed<'a>> {
    words.takes(2, "SUBTYPE LOG_Q")?;
    Ok(Line::Predict {
        subtype: words.at(1)?,
        log_q: words.at(2)?,
    })
}

fn learn<'a>(words: Operands<'_, 'a>) -> Result<Line, Malformed<'a>> {
    words.takes(5, "SUBTYPE BITS LOG_Q TRIAL REPORTS")?;
    Ok(Line::Learn(Lesson {
        subtype: words.at(1)?,
        bits: words.at(2)?,
        log_q: words.at(3)?,
        trial: words.at(4)?,
        reports: words.at(5)?,
    }))
}

fn trim<'a>(words: Operands<'_, 'a>) -> Result<Line, Malformed<'a>> {
    words.takes(6, "SUBTYPE LOG_Q FULLNESS CREDIT LIMIT HIGHEST")?;
    Ok(Line::Trim {
        subtype: words.at(1)?,
        log_q: words.at(2)?,
        room: Room {
            fullness: words.at(3)?,
            credit: words.at(4)?,
            limit: words.at(5)?,
            highest: words.at(6)?,
        },
    })
}

// What the words of a line say, or the first thing that is wrong with them.
pub fn line_of<'a>(words: Operands<'_, 'a>) -> Result<Line, Malformed<'a>> {
    match words.name() {
        "curve" => curve(words),
        "predict" => predict(words),
        "learn" => learn(words),
        "trim" => trim(words),
        _ => Err(words.unknown("line")),
    }
}
