// The lines of a text, read one after another into what they make.
ghost use Rattle.std.specs.Prelude.{◌≡◌, ℕ, List, length, Some, true, IfOk, IfErr, IsUtf8, MatchResult};
ghost use Rattle.std.specs.declared.option.Option as option;
ghost use Rattle.words.specs.Words.{texts};
ghost use Rattle.words.specs.Lines.{lines_in};
ghost use Rattle.operands.specs.Faults.{Told};
ghost use Rattle.operands.specs.Line.{words_of};
ghost use Rattle.operands.specs.Reading.{line_adds, all_add, ToldWrong, WrongIn};

use crate::fault::{Fault, Wrong};
use crate::operands::Operands;
use std::alloc::Global;
use words::{lines_of, text_of, words_of};

// What the lines of a text add to.
pub trait Reader {
    // What it holds, as definitions see it.
    ghost Held: { Type 0 };

    ghost held: { Self → Held };

    // What is held after the words of a line, if they add to it.
    ghost adds: { List (List ℕ) → Held → option.Option Held };

    // Adds the words of a line, which has one at least.
    fn add<'a>(&mut self, heap: Global, line: Operands<'_, 'a>) -> Result<(), Fault<'a>>
        ensures { MatchResult result (λ _. adds (words_of line.entry) (held self.old) ≡ Some (held self.new)) (λ e. Told (adds (words_of line.entry) (held self.old)) e) };
}

// Adds a line. One without words adds nothing.
fn add_line<'a, R: Reader>(all: &mut R, heap: Global, line: &'a str) -> Result<(), Fault<'a>>
    ensures { MatchResult result (λ _. line_adds R.adds line.now (R.held all.old) ≡ Some (R.held all.new)) (λ e. Told (line_adds R.adds line.now (R.held all.old)) e) }
{
    let words = words_of(heap, line)?;
    if words.is_empty() {
        return Ok(());
    }
    all.add(heap, Operands::new(words.as_slice()))
}

// Adds some lines, up to the first that cannot be read.
fn add_lines<'a, R: Reader>(all: &mut R, heap: Global, lines: &[&'a str]) -> Result<(), Wrong<'a>>
    ensures { MatchResult result (λ _. all_add R.adds (texts lines.now) (R.held all.old) ≡ Some (R.held all.new)) (λ w. ToldWrong R.adds (R.held all.old) (texts lines.now) true w.line w.fault) }
{
    for (i, line) in lines.iter().enumerate() {
        if let Err(fault) = add_line(all, heap, line) {
            return Err(Wrong { line: i + 1, fault });
        }
    }
    Ok(())
}

// Adds the lines of a text, and tells how many they are.
fn add_text<'a, R: Reader>(all: &mut R, heap: Global, text: &'a str) -> Result<usize, Wrong<'a>>
    ensures { MatchResult result (λ n. (n ≡ length (lines_in text.now)) × (all_add R.adds (lines_in text.now) (R.held all.old) ≡ Some (R.held all.new))) (λ w. ToldWrong R.adds (R.held all.old) (lines_in text.now) true w.line w.fault) }
{
    let Ok(lines) = lines_of(heap, text) else {
        return Err(Wrong {
            line: 1,
            fault: Fault::NoMemory,
        });
    };
    add_lines(all, heap, lines.as_slice())?;
    Ok(lines.len())
}

// What the lines of a text of bytes add to; or the first line that cannot be read, and why. A line
// without words is passed over.
pub fn read_text<'a, R: Reader + Drop>(
    heap: Global,
    bytes: &'a [u8],
    first: R,
) -> Result<R, Wrong<'a>>
    ensures accepted { IfOk result (λ r. IsUtf8 bytes.now × (all_add R.adds (lines_in bytes.now) (R.held first) ≡ Some (R.held r))) }
    ensures refused { IfErr result (λ w. WrongIn R.adds (R.held first) bytes.now w.line w.fault) }
{
    let mut all = first;
    match text_of(bytes) {
        Ok(text) => {
            add_text(&mut all, heap, text)?;
            Ok(all)
        }
        Err(cut) => Err(Wrong {
            line: add_text(&mut all, heap, cut.before)?,
            fault: Fault::NotText,
        }),
    }
}
