// Choices: ends of their operands, a single index, monochrome, and models and outlooks at their extremes.
use crate::setting::{NONE, choice, opened, small};
use calls::{Answer, Call, Decision};
use controller::Controller;
use flat::ac_log;
use model::Settings;
use outlook::{List, Outlook, Pattern};
use quantize::Scales;
use stair::Stair;
use std::test::Fail;
use tables::Depth;

// How far a base may lie from the previous frame's.
const REACH: i64 = 0xA4_D3C2_5E68_DC58;

// The figures of a choice, whose ticket is withdrawn again.
fn chosen<O: Outlook>(
    controller: &mut Controller<Stair>,
    outlooks: &[O],
    subtype: u8,
    previous: Option<i64>,
    mean: i64,
) -> Result<Decision, Fail> {
    match controller.perform(outlooks, choice(subtype, previous, mean)) {
        Answer::Chosen { ticket, decision } => {
            let _ = controller.perform(outlooks, Call::Withdraw { ticket });
            Ok(decision)
        }
        _ => Err(Fail::new("the choice is refused")),
    }
}

#[test]
fn nothing_ahead(rt: HostRuntime) -> Result<(), Fail> {
    let mut c = opened(&small(false), 9)?;
    let d = chosen(&mut c, &NONE, 1, None, 0)?;
    assert_eq!(rt; d.total, 0);
    assert_eq!(rt; d.tries, 1);
    assert_eq!(rt; d.quantizer.log_base_q, d.found);
    Ok(())
}

// The base of a choice after a frame with this base.
fn base_after(controller: &mut Controller<Stair>, previous: i64) -> Result<i64, Fail> {
    let decision = chosen(controller, &NONE, 1, Some(previous), 0)?;
    Ok(decision.quantizer.log_base_q)
}

#[test]
fn previous_ends(rt: HostRuntime) -> Result<(), Fail> {
    let mut c = opened(&small(false), 9)?;
    assert_eq!(rt; base_after(&mut c, i64::MIN)?, i64::MIN + REACH);
    assert_eq!(rt; base_after(&mut c, i64::MAX)?, i64::MAX - REACH);
    let found = chosen(&mut c, &NONE, 1, None, 0)?.found;
    let above = found.saturating_add(REACH);
    let below = found.saturating_sub(REACH);
    assert_eq!(rt; base_after(&mut c, above)?, found);
    assert_eq!(rt;
        base_after(&mut c, above.saturating_add(1))?,
        found.saturating_add(1)
    );
    assert_eq!(rt; base_after(&mut c, below)?, found);
    assert_eq!(rt;
        base_after(&mut c, below.saturating_sub(1))?,
        found.saturating_sub(1)
    );
    Ok(())
}

#[test]
fn mean_ends(rt: HostRuntime) -> Result<(), Fail> {
    let mut c = opened(&small(false), 9)?;
    let low = chosen(&mut c, &NONE, 1, None, i64::MIN)?;
    assert!(rt; low.quantizer.ac_qi[0] == 1);
    let high = chosen(&mut c, &NONE, 1, None, i64::MAX)?;
    assert!(rt; high.quantizer.ac_qi[0] == 255);
    Ok(())
}

#[test]
fn one_index(rt: HostRuntime) -> Result<(), Fail> {
    let s = Settings {
        lowest: 77,
        highest: Some(77),
        ..small(false)
    };
    let mut c = opened(&s, 9)?;
    let d = chosen(&mut c, &NONE, 1, None, 0)?;
    assert_eq!(rt; d.tries, 0);
    assert_eq!(rt; d.found, ac_log(77, Depth::Eight));
    Ok(())
}

#[test]
fn monochrome(rt: HostRuntime) -> Result<(), Fail> {
    let s = Settings {
        sampling: 3,
        ..small(false)
    };
    let mut c = opened(&s, 9)?;
    let d = chosen(&mut c, &NONE, 0, None, 0)?;
    assert!(rt; d.quantizer.ac_qi[1] == 0 && d.quantizer.dc_qi[2] == 0);
    match d.quantizer.scales {
        Scales::Mono(_) => Ok(()),
        Scales::Colour(_, _, _) => Err(Fail::new("three scales")),
    }
}

#[test]
fn stairs(rt: HostRuntime) -> Result<(), Fail> {
    // an I frame and seven P frames, all shown
    let ahead = [Pattern::new(rt.alloc(), &[8, 9, 9, 9, 9, 9, 9, 9])?];
    let bottom = ac_log(0, Depth::Eight);
    let top = ac_log(255, Depth::Eight);
    // nothing is ever predicted: the search goes down to its bottom, or one under it
    let mut none = opened(&small(false), 0)?;
    let low = chosen(&mut none, &ahead, 1, None, 0)?;
    assert_eq!(rt; low.total, 12 * 39_984);
    assert!(rt; low.found == bottom || low.found == bottom.saturating_sub(1));
    // more is predicted than there is: the search goes up to its top
    let mut much = opened(&small(false), u32::MAX)?;
    let high = chosen(&mut much, &ahead, 1, None, 0)?;
    assert_eq!(rt; high.total, 12 * 39_984);
    assert_eq!(rt; high.found, top);
    assert!(rt; low.tries <= 60 && high.tries <= 60);
    // exactly what there is: the first middle is the base
    let mut even = opened(&small(false), 39_984)?;
    assert_eq!(rt; chosen(&mut even, &ahead, 1, None, 0)?.tries, 1);
    Ok(())
}

#[test]
fn only_shows(rt: HostRuntime) -> Result<(), Fail> {
    // shows of existing frames: 24 bits each, whatever the base
    let shows = [List::new(rt.alloc(), &[12, 12, 12])?];
    let mut c = opened(&small(false), 9)?;
    let d = chosen(&mut c, &shows, 1, None, 0)?;
    assert_eq!(rt; d.total, 3 * 39_984);
    let bottom = ac_log(0, Depth::Eight);
    assert!(rt; d.found == bottom || d.found == bottom.saturating_sub(1));
    Ok(())
}
