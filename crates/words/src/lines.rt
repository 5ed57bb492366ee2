// The lines of a text and the words of a line. A line's words are parted by ASCII white space, and
// a `#` cuts off the rest of the line.
ghost use Rattle.std.specs.Prelude.{◌≡◌, true, false, length, take, IfOk, MatchResult};
ghost use Rattle.numerals.specs.Words.{texts};
ghost use Rattle.words.specs.Lines.{before_comment, words_in, lines_in, LineStart, TextOf};

use std::alloc::{AllocError, Global};
use std::error::Error;
use std::fmt;
use std::str::from_utf8;

// Some bytes are not UTF-8: the lines before the first that is not.
#[derive(Clone, Copy, Debug, PartialEq, Eq)]
pub struct NotText<'a> {
    pub before: &'a str,
}

impl fmt::Display for NotText<'_> {
    fn fmt<W: fmt::Write>(&self, f: &mut fmt::Formatter<W>) -> fmt::Result {
        f.write_str("a line is not UTF-8")
    }
}

impl Error for NotText<'_> {}

// What stands before the first `#` of a line, or all of it.
fn before_comment(line: &str) -> &str
    ensures { result.now ≡ before_comment line.now }
{
    match line.split_once('#') {
        Some((front, _)) => front,
        None => line,
    }
}

// The words of a line before its comment. It refuses only for want of memory.
pub fn words_of<'a>(heap: Global, line: &'a str) -> Result<Vec<&'a str>, AllocError>
    ensures { IfOk result (λ ws. texts ws.items ≡ words_in line.now) }
{
    let mut words = Vec::new(heap);
    let mut rest = before_comment(line).trim_ascii_start();
    while let Some(at) = rest.bytes().position(|b| b.is_ascii_whitespace()) {
        words.push(&rest[..at])?;
        rest = rest[at + 1..].trim_ascii_start();
    }
    if !rest.is_empty() {
        words.push(rest)?;
    }
    Ok(words)
}

// The lines of a text, cut at each line feed; what follows the last one is a line too. A carriage
// return before a line feed stays: it is white space. It refuses only for want of memory.
pub fn lines_of<'a>(heap: Global, text: &'a str) -> Result<Vec<&'a str>, AllocError>
    ensures { IfOk result (λ ls. texts ls.items ≡ lines_in text.now) }
{
    let mut lines = Vec::new(heap);
    let mut rest = text;
    while let Some(at) = rest.bytes().position(|b| b == b'\n') {
        lines.push(&rest[..at])?;
        rest = &rest[at + 1..];
    }
    lines.push(rest)?;
    Ok(lines)
}

// The lines of a text that a line feed ends.
fn ended_lines(text: &str) -> &str
    ensures front { result.now ≡ take (length result.now) text.now }
    ensures start { LineStart text.now (length text.now) (length result.now) }
{
    match text.rfind('\n') {
        Some(at) => &text[..at + 1],
        None => "",
    }
}

// The text that the bytes are, or the lines before the first that is not UTF-8.
pub fn text_of(bytes: &[u8]) -> Result<&str, NotText<'_>>
    ensures { MatchResult result (λ text. TextOf bytes.now text.now true) (λ e. TextOf bytes.now e.before.now false) }
{
    match from_utf8(bytes) {
        Ok(text) => Ok(text),
        Err(e) => match from_utf8(&bytes[..e.valid_up_to()]) {
            Ok(text) => Err(NotText {
                before: ended_lines(text),
            }),
            Err(_) => unreachable(),
        },
    }
}
