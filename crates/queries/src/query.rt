// What a line asks.
ghost use Rattle.std.specs.Prelude.{◌≡◌};
ghost use Rattle.std.specs.Result.{result_ok};
ghost use Rattle.words.specs.Words.{texts};
ghost use Rattle.operands.specs.Line.{words_of};
ghost use Rattle.queries.specs.Asked.{one_signed, q, select_qi, quantizer, asked};

use operands::{Malformed, Operands};
use quantize::Coefficient;

// A question. Depths, samplings and indexes are any bytes here: a bad one is refused by its answer.
#[derive(Clone, Copy, Debug, PartialEq)]
pub enum Query {
    // The binary logarithm of a number, in Q57.
    Blog64(i64),
    // The binary exponential of a logarithm in Q57.
    Bexp64(i64),
    // The entry of an index in the table of a coefficient.
    Q {
        coefficient: Coefficient,
        depth: u8,
        index: u8,
    },
    // The index that stands for a quantizer in the table of a coefficient.
    SelectQi {
        coefficient: Coefficient,
        depth: u8,
        q: i64,
    },
    // The indexes and plane scales of a frame.
    Quantizer {
        log_q: i64,
        depth: u8,
        sampling: u8,
        is_intra: bool,
        mean: i64,
    },
}

// The only operand, a signed number, which is told as `which`.
fn one_signed<'a>(words: Operands<'_, 'a>, which: &'static str) -> Result<i64, Malformed<'a>>
    ensures { result_ok result ≡ one_signed (words_of words.entry) }
{
    words.takes(1, which)?;
    words.at(1)
}

fn q<'a>(words: Operands<'_, 'a>, coefficient: Coefficient) -> Result<Query, Malformed<'a>>
    ensures { result_ok result ≡ q coefficient (words_of words.entry) }
{
    words.takes(2, "DEPTH INDEX")?;
    Ok(Query::Q {
        coefficient,
        depth: words.at(1)?,
        index: words.at(2)?,
    })
}

fn select_qi<'a>(words: Operands<'_, 'a>, coefficient: Coefficient) -> Result<Query, Malformed<'a>>
    ensures { result_ok result ≡ select_qi coefficient (words_of words.entry) }
{
    words.takes(2, "DEPTH Q")?;
    Ok(Query::SelectQi {
        coefficient,
        depth: words.at(1)?,
        q: words.at(2)?,
    })
}

fn quantizer<'a>(words: Operands<'_, 'a>) -> Result<Query, Malformed<'a>>
    ensures { result_ok result ≡ quantizer (words_of words.entry) }
{
    words.takes(5, "LOG_Q DEPTH SAMPLING INTRA MEAN")?;
    Ok(Query::Quantizer {
        log_q: words.at(1)?,
        depth: words.at(2)?,
        sampling: words.at(3)?,
        is_intra: words.at(4)?,
        mean: words.at(5)?,
    })
}

// The question that the words ask, as `query_of` says.
fn asked<'a>(words: Operands<'_, 'a>) -> Result<Query, Malformed<'a>>
    ensures { result_ok result ≡ asked (words_of words.entry) }
{
    match words.name() {
        "blog64" => Ok(Query::Blog64(one_signed(words, "N")?)),
        "bexp64" => Ok(Query::Bexp64(one_signed(words, "X")?)),
        "ac_q" => q(words, Coefficient::Ac),
        "dc_q" => q(words, Coefficient::Dc),
        "select_ac_qi" => select_qi(words, Coefficient::Ac),
        "select_dc_qi" => select_qi(words, Coefficient::Dc),
        "quantizer" => quantizer(words),
        _ => Err(words.unknown("question")),
    }
}

// The question that the words of a line ask, or the first thing that is wrong with them: the name,
// then the count of operands, then each operand in order.
pub fn query_of<'a>(words: &[&'a str]) -> Result<Query, Malformed<'a>>
    ensures { result_ok result ≡ asked (texts words.now) }
{
    asked(Operands::new(words))
}
