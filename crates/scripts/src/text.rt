// The script of a whole text, read before anything is run.
ghost use Rattle.std.specs.Prelude.{◌≡◌, IfOk, IfErr, Some, IsUtf8};
ghost use Rattle.words.specs.Lines.{lines_in};
ghost use Rattle.scripts.specs.Read.{empty, read_of};
ghost use Rattle.scripts.specs.Text.{all_add, WrongIn};

use crate::script::Script;
use operands::{Wrong, read_text};
use std::alloc::Global;

// The script of a text of bytes; or the first line that cannot be read, and why. A line without words is passed over.
pub fn script_of<'a>(heap: Global, bytes: &'a [u8]) -> Result<Script, Wrong<'a>>
    ensures accepted { IfOk result (λ s. IsUtf8 bytes.now × (all_add (lines_in bytes.now) empty ≡ Some (read_of s))) }
    ensures refused { IfErr result (λ w. WrongIn bytes.now w.line w.fault) }
{
    read_text(heap, bytes, Script::new(heap))
}
