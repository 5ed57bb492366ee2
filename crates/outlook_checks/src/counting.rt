// What lists and patterns count, at the ends of the units and of the cycles.
use outlook::{List, Outlook, Pattern};
use std::process::Abort;
use std::test::Fail;

// What is to be counted for some units: the subtypes, the frames, the shown entries.
#[derive(Clone, Copy)]
struct Row(u32, [u32; 5], u32, u32);

fn agrees<O: Outlook>(rt: &impl Abort, outlook: &O, rows: &[Row]) {
    for row in rows {
        let counts = outlook.count(row.0);
        assert_eq!(rt; counts.kinds, row.1);
        assert_eq!(rt; counts.frames, row.2);
        assert_eq!(rt; counts.shown, row.3);
    }
}

// A hidden P frame, two shown B frames, and the show of the P frame.
const PYRAMID: [u8; 4] = [1, 10, 11, 12];

// The same with a frame after it that is not shown.
const TRAILING: [u8; 5] = [1, 10, 11, 12, 2];

#[test]
fn empty(rt: HostRuntime) -> Result<(), Fail> {
    let list = List::new(rt.alloc(), &[])?;
    let rows = [
        Row(0, [0, 0, 0, 0, 0], 0, 0),
        Row(u32::MAX, [0, 0, 0, 0, 0], 0, 0),
    ];
    agrees(&rt, &list, &rows);
    Ok(())
}

// What follows the last shown entry that is needed is left out.
#[test]
fn list(rt: HostRuntime) -> Result<(), Fail> {
    let list = List::new(rt.alloc(), &TRAILING)?;
    let rows = [
        Row(0, [0, 0, 0, 0, 0], 0, 0),
        Row(1, [0, 1, 1, 0, 0], 2, 1),
        Row(3, [0, 1, 1, 1, 1], 3, 3),
        Row(4, [0, 1, 2, 1, 1], 4, 3),
        Row(u32::MAX, [0, 1, 2, 1, 1], 4, 3),
    ];
    agrees(&rt, &list, &rows);
    Ok(())
}

// 1,024 cycles of 3 shown entries.
#[test]
fn pattern(rt: HostRuntime) -> Result<(), Fail> {
    let pattern = Pattern::new(rt.alloc(), &PYRAMID)?;
    let rows = [
        Row(0, [0, 0, 0, 0, 0], 0, 0),
        Row(1, [0, 1, 1, 0, 0], 2, 1),
        Row(3, [0, 1, 1, 1, 1], 3, 3),
        Row(4, [0, 2, 2, 1, 1], 5, 4),
        Row(3071, [0, 1024, 1024, 1024, 1023], 3072, 3071),
        Row(3072, [0, 1024, 1024, 1024, 1024], 3072, 3072),
        Row(u32::MAX, [0, 1024, 1024, 1024, 1024], 3072, 3072),
    ];
    agrees(&rt, &pattern, &rows);
    Ok(())
}

// 819 cycles of 3 shown entries, without the entry after the last of them, and then with it and the first of a cycle.
#[test]
fn part_of_a_cycle(rt: HostRuntime) -> Result<(), Fail> {
    let pattern = Pattern::new(rt.alloc(), &TRAILING)?;
    let rows = [
        Row(2457, [0, 819, 1637, 819, 819], 3275, 2457),
        Row(2458, [0, 820, 1638, 819, 819], 3277, 2457),
    ];
    agrees(&rt, &pattern, &rows);
    Ok(())
}

#[test]
fn nothing_shown(rt: HostRuntime) -> Result<(), Fail> {
    let pattern = Pattern::new(rt.alloc(), &[1, 2, 3])?;
    let rows = [
        Row(0, [0, 0, 0, 0, 0], 0, 0),
        Row(1, [0, 1366, 1365, 1365, 0], 4096, 0),
        Row(u32::MAX, [0, 1366, 1365, 1365, 0], 4096, 0),
    ];
    agrees(&rt, &pattern, &rows);
    Ok(())
}

#[test]
fn longest_pattern(rt: HostRuntime) -> Result<(), Fail> {
    let pattern = Pattern::new(rt.alloc(), &[8; 64])?;
    let rows = [
        Row(65, [65, 0, 0, 0, 0], 65, 65),
        Row(4096, [4096, 0, 0, 0, 0], 4096, 4096),
        Row(4097, [4096, 0, 0, 0, 0], 4096, 4096),
    ];
    agrees(&rt, &pattern, &rows);
    Ok(())
}
