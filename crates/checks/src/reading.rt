// The operands of a line, of every kind at once.
use operands::{Fault, Operand, Operands};
use std::alloc::Global;
use std::test::Fail;
use words::words_of;

// What all operands write, by the trait alone.
fn all_of<'a, T: Operand + Drop>(heap: Global, words: &[&'a str]) -> Result<Vec<T>, Fault<'a>> {
    Operands::new(words).all::<T>(heap)
}

#[test]
fn operands(rt: HostRuntime) -> Result<(), Fail> {
    let heap = rt.alloc();
    let words = words_of(heap, "list 1 2 255 # 9")?;
    let bytes = all_of::<u8>(heap, words.as_slice())?;
    assert_eq!(rt; bytes.as_slice(), [1u8, 2, 255].as_slice());
    let words = words_of(heap, "list 1 256")?;
    assert!(rt; all_of::<u8>(heap, words.as_slice()).is_err());
    Ok(())
}
