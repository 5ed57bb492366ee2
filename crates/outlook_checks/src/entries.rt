// The bytes of entries, and which lists and patterns are made.
use crate::again::read_again;
use outlook::{Entry, List, NotMade, Pattern, Refusal};
use std::process::Abort;
use std::test::Fail;

fn accepts(rt: &impl Abort, byte: u8, subtype: u8, shown: bool) -> Result<(), Fail> {
    let entry = Entry::try_from(byte)?;
    assert_eq!(rt; entry.subtype(), subtype);
    assert_eq!(rt; entry.is_shown(), shown);
    assert_eq!(rt; read_again(byte), Some(byte));
    Ok(())
}

#[test]
fn bytes(rt: HostRuntime) -> Result<(), Fail> {
    accepts(&rt, 0, 0, false)?;
    accepts(&rt, 3, 3, false)?;
    accepts(&rt, 8, 0, true)?;
    accepts(&rt, 11, 3, true)?;
    accepts(&rt, 12, 4, true)?;
    for byte in [4, 5, 7, 13, 15, 16, 255] {
        assert_eq!(rt; read_again(byte), None);
    }
    Ok(())
}

const WRONG_LENGTH: Option<NotMade> = Some(NotMade::Refused(Refusal::WrongLength));

const UNLAWFUL: Option<NotMade> = Some(NotMade::Refused(Refusal::Unlawful));

#[test]
fn lists(rt: HostRuntime) {
    let heap = rt.alloc();
    let most = [8; 4096];
    let more = [8; 4097];
    let unlawful = [4; 4097];
    assert_eq!(rt; List::new(heap, &[]).err(), None);
    assert_eq!(rt; List::new(heap, &most).err(), None);
    assert_eq!(rt; List::new(heap, &more).err(), WRONG_LENGTH);
    assert_eq!(rt;
        List::new(heap, &unlawful).err(),
        WRONG_LENGTH,
        "the length is asked first"
    );
    assert_eq!(rt; List::new(heap, &[8, 9, 16]).err(), UNLAWFUL);
}

#[test]
fn patterns(rt: HostRuntime) {
    let heap = rt.alloc();
    let most = [9; 64];
    let more = [9; 65];
    assert_eq!(rt; Pattern::new(heap, &[]).err(), WRONG_LENGTH);
    assert_eq!(rt; Pattern::new(heap, &[12]).err(), None);
    assert_eq!(rt; Pattern::new(heap, &most).err(), None);
    assert_eq!(rt; Pattern::new(heap, &more).err(), WRONG_LENGTH);
    assert_eq!(rt; Pattern::new(heap, &[9, 4]).err(), UNLAWFUL);
    assert_eq!(rt; u8::from(Refusal::WrongLength), 31);
    assert_eq!(rt; u8::from(Refusal::Unlawful), 32);
}
