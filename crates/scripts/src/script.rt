// A script, and how the words of a line add to it.
ghost use Rattle.std.specs.Prelude.{◌≡◌, length, Some, OnOk, IfOk, MatchResult};
ghost use Rattle.operands.specs.Faults.{Told};
ghost use Rattle.operands.specs.Line.{words_of};
ghost use Rattle.operands.specs.declared.fault.Fault.TheVariants.{NoMemory};
ghost use Rattle.scripts.specs.Read.{Read, empty, rows, read_of, with_line, place_of, kept, settled, stair_line, list_line, pattern_line, other_line, words_read};

use crate::line::{Line, line_of};
use operands::{Fault, Operands, Reader};
use outlook::{Known, List, NotMade, Pattern, Refusal};
use stair::Stair;
use std::alloc::{AllocError, Global};

// The steps of a row of a stair.
const STEPS: usize = 64;

// The operands of a stair's line: a count for each step of its four rows.
const COUNTS: usize = 256;

// The lines of a script, and the outlooks and stairs that they made, each in their order. A line tells of what it made
// by its place: a recorded call names an outlook so, by a rule, and a line that is copied cannot hold a list.
#[derive(Drop)]
pub struct Script {
    pub lines: Vec<Line>,
    pub outlooks: Vec<Known>,
    pub stairs: Vec<Stair>,
}

// The four rows of a stair.
fn rows_of(counts: &[u32]) -> [[u32; 64]; 4]
    requires { length counts.now ≡ 256 }
    ensures { result ≡ rows counts.now }
{
    let (rows, _) = counts.as_chunks::<STEPS>();
    <[[u32; 64]; 4]>::try_from(rows).unwrap()
}

// The outlook that was made, or its refusal; want of memory stops the reading.
fn settled<'a>(made: Result<Known, NotMade>) -> Result<Result<Known, Refusal>, Fault<'a>>
    ensures { MatchResult result (λ known. settled made ≡ Some known) (λ e. e ≡ NoMemory) }
{
    match made {
        Ok(known) => Ok(Ok(known)),
        Err(NotMade::Refused(refusal)) => Ok(Err(refusal)),
        Err(NotMade::NoMemory) => Err(Fault::NoMemory),
    }
}

// Keeps what was made behind the others, and tells its place; a refusal is told alone.
fn keep<T: Drop, E: Drop>(
    items: &mut Vec<T>,
    made: Result<T, E>,
) -> Result<Result<usize, E>, AllocError>
    ensures place { IfOk result (λ place. place ≡ place_of made items.old.items) }
    ensures kept { OnOk result (items.new.items ≡ kept made items.old.items) }
{
    match made {
        Ok(item) => {
            let place = items.len();
            items.push(item)?;
            Ok(Ok(place))
        }
        Err(refusal) => Ok(Err(refusal)),
    }
}

impl Script {
    // A script without lines.
    pub(crate) fn new(heap: Global) -> Script
        ensures { read_of result ≡ empty }
    {
        Script {
            lines: Vec::new(heap),
            outlooks: Vec::new(heap),
            stairs: Vec::new(heap),
        }
    }

    // Puts a line behind the others.
    fn push_line(&mut self, line: Line) -> Result<(), AllocError>
        ensures { OnOk result (read_of self.new ≡ with_line line (read_of self.old)) }
    {
        self.lines.push(line)?;
        Ok(())
    }

    // Reads the line of a stair.
    fn read_stair<'a>(&mut self, heap: Global, words: Operands<'_, 'a>) -> Result<(), Fault<'a>>
        ensures { MatchResult result (λ _. stair_line (words_of words.entry) (read_of self.old) ≡ Some (read_of self.new)) (λ e. Told (stair_line (words_of words.entry) (read_of self.old)) e) }
    {
        words.takes(COUNTS, "C0 ... C255")?;
        let counts = words.all::<u32>(heap)?;
        let place = keep(&mut self.stairs, Stair::new(rows_of(counts.as_slice())))?;
        self.push_line(Line::Stair(place))?;
        Ok(())
    }

    // Reads the line of a list.
    fn read_list<'a>(&mut self, heap: Global, words: Operands<'_, 'a>) -> Result<(), Fault<'a>>
        ensures { MatchResult result (λ _. list_line (words_of words.entry) (read_of self.old) ≡ Some (read_of self.new)) (λ e. Told (list_line (words_of words.entry) (read_of self.old)) e) }
    {
        let bytes = words.all::<u8>(heap)?;
        let list = settled(List::new(heap, bytes.as_slice()).map(Known::Listed))?;
        let place = keep(&mut self.outlooks, list)?;
        self.push_line(Line::List(place))?;
        Ok(())
    }

    // Reads the line of a pattern: as that of a list, but for the type that is made. One function for both would take
    // the making and the line as closures with their contracts, which is no plainer than these four calls.
    fn read_pattern<'a>(&mut self, heap: Global, words: Operands<'_, 'a>) -> Result<(), Fault<'a>>
        ensures { MatchResult result (λ _. pattern_line (words_of words.entry) (read_of self.old) ≡ Some (read_of self.new)) (λ e. Told (pattern_line (words_of words.entry) (read_of self.old)) e) }
    {
        let bytes = words.all::<u8>(heap)?;
        let pattern = settled(Pattern::new(heap, bytes.as_slice()).map(Known::Repeated))?;
        let place = keep(&mut self.outlooks, pattern)?;
        self.push_line(Line::Pattern(place))?;
        Ok(())
    }

    // Reads any other line.
    fn read_other<'a>(&mut self, words: Operands<'_, 'a>) -> Result<(), Fault<'a>>
        ensures { MatchResult result (λ _. other_line (words_of words.entry) (read_of self.old) ≡ Some (read_of self.new)) (λ e. Told (other_line (words_of words.entry) (read_of self.old)) e) }
    {
        self.push_line(line_of(words)?)?;
        Ok(())
    }
}

impl Reader for Script {
    ghost Held = { Read };

    ghost held = { read_of };

    ghost adds = { words_read };

    fn add<'a>(&mut self, heap: Global, words: Operands<'_, 'a>) -> Result<(), Fault<'a>> {
        match words.name() {
            "stair" => self.read_stair(heap, words),
            "list" => self.read_list(heap, words),
            "pattern" => self.read_pattern(heap, words),
            _ => self.read_other(words),
        }
    }
}
