// The stair: its steps at both ends, rows that rise, counts of 32 bits, and a stair in use.
use crate::operands::{ONE, lesson, room};
use model::BitModel;
use stair::{Refusal, Stair};
use std::process::Abort;
use std::test::Fail;

// A row that falls by 1 from step to step.
fn falling_from(top: u32) -> [u32; 64] {
    let mut row = [top; 64];
    for (count, k) in row.iter_mut().zip(0..64) {
        *count = top.saturating_sub(k);
    }
    row
}

// Rows that fall by 1 from step to step.
fn falling() -> [[u32; 64]; 4] {
    [
        falling_from(4_000),
        falling_from(3_000),
        falling_from(2_000),
        falling_from(1_000),
    ]
}

#[test]
fn steps(rt: HostRuntime) -> Result<(), Fail> {
    let stair = Stair::new(falling())?;
    assert_eq!(rt; stair.predict(0, i64::MIN), 4_000);
    assert_eq!(rt; stair.predict(0, -6 * ONE - 1), 4_000);
    assert_eq!(rt; stair.predict(0, -6 * ONE), 4_000);
    assert_eq!(rt; stair.predict(0, -6 * ONE + (1 << 55) - 1), 4_000);
    assert_eq!(rt; stair.predict(0, -6 * ONE + (1 << 55)), 3_999);
    assert_eq!(rt; stair.predict(1, -1), 3_000 - 23);
    assert_eq!(rt; stair.predict(1, 0), 3_000 - 24);
    assert_eq!(rt; stair.predict(2, 39 * (1 << 55) - 1), 2_000 - 62);
    assert_eq!(rt; stair.predict(2, 39 * (1 << 55)), 2_000 - 63);
    assert_eq!(rt; stair.predict(3, i64::MAX), 1_000 - 63);
    assert_eq!(rt; stair.predict(4, 0), 0);
    Ok(())
}

fn refused(rt: &impl Abort, k: usize, j: usize) {
    let mut rows = falling();
    assert!(rt; k < 4 && j < 64);
    rows[k][j] = u32::MAX;
    assert_eq!(rt; Stair::new(rows).err(), Some(Refusal::Rises));
}

#[test]
fn rises(rt: HostRuntime) {
    refused(&rt, 0, 1);
    refused(&rt, 0, 63);
    refused(&rt, 1, 30);
    refused(&rt, 3, 63);
    assert_eq!(rt; u8::from(Refusal::Rises), 34);
    let mut rows = falling();
    rows[3][63] = 1_000 - 62 + 1;
    assert_eq!(rt; Stair::new(rows).err(), Some(Refusal::Rises));
    rows[3][63] = 1_000 - 62;
    assert!(rt; Stair::new(rows).is_ok());
}

#[test]
fn widest(rt: HostRuntime) -> Result<(), Fail> {
    let stair = Stair::new([[u32::MAX; 64]; 4])?;
    assert_eq!(rt; stair.predict(3, i64::MAX), 4_294_967_295);
    assert_eq!(rt; stair.predict(0, i64::MIN), 4_294_967_295);
    Ok(())
}

#[test]
fn example(rt: HostRuntime) -> Result<(), Fail> {
    let mut stair = Stair::new(falling())?;
    assert_eq!(rt; stair.predict(0, 2 * ONE), 4_000 - 32);
    stair.learn(lesson(0, 1, 2 * ONE, true, 0));
    assert_eq!(rt; stair.predict(0, 2 * ONE), 4_000 - 32, "nothing is learnt");
    assert_eq!(rt;
        stair.trim(0, 2 * ONE, room(0, 0, 1, false)),
        2 * ONE,
        "nothing is trimmed"
    );
    Ok(())
}
