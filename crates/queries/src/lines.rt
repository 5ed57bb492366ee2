// The questions of a whole text, read before any is answered.
ghost use Rattle.std.specs.Prelude.{◌≡◌, List, IfOk, IfErr, Some, IsUtf8};
ghost use Rattle.words.specs.Lines.{lines_in};
ghost use Rattle.queries.specs.Read.{asks_more, all_asked, WrongIn};
ghost use Rattle.queries.specs.declared.query.Query as query;

use crate::query::{Query, query_of};
use operands::{Fault, Operands, Reader, Wrong, read_text};
use std::alloc::Global;

// The questions that were read so far.
#[derive(Drop)]
struct Asked {
    queries: Vec<Query>,
}

impl Reader for Asked {
    ghost Held = { List query.Query };

    ghost held = { λ a. a.queries.items };

    ghost adds = { asks_more };

    fn add<'a>(&mut self, _heap: Global, words: Operands<'_, 'a>) -> Result<(), Fault<'a>> {
        self.queries.push(query_of(words.words())?)?;
        Ok(())
    }
}

// The questions of a text of bytes, in the order of its lines; or the first line that cannot be
// read, and why. A line without words asks nothing.
pub fn queries<'a>(heap: Global, bytes: &'a [u8]) -> Result<Vec<Query>, Wrong<'a>>
    ensures accepted { IfOk result (λ qs. IsUtf8 bytes.now × (all_asked (lines_in bytes.now) ≡ Some qs.items)) }
    ensures refused { IfErr result (λ w. WrongIn bytes.now w.line w.fault) }
{
    let none = Asked {
        queries: Vec::new(heap),
    };
    let all = read_text(heap, bytes, none)?;
    Ok(all.queries)
}
