// Reports and shows: charges, credits, the cap, the bias, and frames that are dropped.
use crate::setting::{NONE, choice, opened, report, small};
use calls::{Answer, Call, Reported};
use controller::Controller;
use stair::Stair;
use std::test::Fail;

// A choice and its report, which has the number of that choice.
fn coded(
    controller: &mut Controller<Stair>,
    ticket: u64,
    bits: u32,
    shown: bool,
    droppable: bool,
) -> Answer {
    let _ = controller.perform(&NONE, choice(1, None, 0));
    controller.perform(&NONE, report(ticket, bits, shown, droppable))
}

fn charged(charge: u32) -> Answer {
    Answer::Charged(Reported {
        charge,
        dropped: false,
    })
}

const DROPPED: Answer = Answer::Charged(Reported {
    charge: 0,
    dropped: true,
});

#[test]
fn charges(rt: HostRuntime) -> Result<(), Fail> {
    let mut c = opened(&small(false), 30_000)?;
    assert_eq!(rt; coded(&mut c, 1, 100_000, true, true), charged(100_000));
    assert_eq!(rt; c.status().fullness, 179_888);
    assert_eq!(rt; c.status().rate_bias, 30_000 - 100_000);
    assert_eq!(rt; c.status().coded, 1);
    assert_eq!(rt; coded(&mut c, 2, 0, false, false), DROPPED, "no bits");
    assert_eq!(rt;
        c.status().fullness,
        179_888,
        "a frame that is not shown brings no credit"
    );
    assert_eq!(rt;
        c.status().rate_bias,
        30_000 - 100_000,
        "nothing is predicted for no bits"
    );
    assert_eq!(rt; c.status().coded, 1);
    assert_eq!(rt; c.perform(&NONE, Call::Show), Answer::Shown);
    assert_eq!(rt; c.status().fullness, 179_888 - 24 + 39_984);
    assert_eq!(rt; c.status().rate_bias, 30_000 - 100_000);
    Ok(())
}

#[test]
fn capped(rt: HostRuntime) -> Result<(), Fail> {
    let mut c = opened(&small(false), 0)?;
    for ticket in 1..7 {
        assert_eq!(rt; coded(&mut c, ticket, 0, true, false), DROPPED);
    }
    assert_eq!(rt; c.status().fullness, 479_808);
    assert_eq!(rt; coded(&mut c, 7, 0, true, false), DROPPED);
    assert_eq!(rt; c.status().fullness, 479_808);
    assert_eq!(rt; coded(&mut c, 8, 10_000, true, false), charged(10_000));
    assert_eq!(rt;
        c.status().fullness,
        479_808,
        "the credit comes before the cap"
    );
    Ok(())
}

#[test]
fn dropped(rt: HostRuntime) -> Result<(), Fail> {
    let mut c = opened(&small(true), 5)?;
    assert_eq!(rt; coded(&mut c, 1, 279_888, true, true), charged(279_888));
    assert_eq!(rt; c.status().fullness, 0);
    let mut d = opened(&small(true), 5)?;
    assert_eq!(rt; coded(&mut d, 1, 279_889, true, true), DROPPED);
    assert_eq!(rt; d.status().fullness, 279_888);
    assert_eq!(rt;
        d.status().rate_bias,
        5,
        "the bias gains predicted less nothing"
    );
    assert_eq!(rt; d.status().coded, 1);
    let mut e = opened(&small(true), 5)?;
    assert_eq!(rt;
        coded(&mut e, 1, 279_889, true, false),
        charged(279_889),
        "not droppable"
    );
    let mut f = opened(&small(false), 5)?;
    assert_eq!(rt;
        coded(&mut f, 1, 279_889, true, true),
        charged(279_889),
        "dropping is off"
    );
    Ok(())
}

#[test]
fn far_below(rt: HostRuntime) -> Result<(), Fail> {
    let mut c = opened(&small(false), u32::MAX)?;
    for ticket in 1..5 {
        assert_eq!(rt;
            coded(&mut c, ticket, u32::MAX, false, false),
            charged(u32::MAX)
        );
    }
    assert_eq!(rt; c.status().fullness, 239_904 - 4 * 4_294_967_295);
    assert_eq!(rt; c.status().rate_bias, 0);
    match c.perform(&NONE, choice(0, None, 0)) {
        Answer::Chosen { ticket, decision } => {
            assert_eq!(rt; ticket, 5);
            assert_eq!(rt; decision.total, -4 * 4_294_967_295);
            Ok(())
        }
        _ => Err(Fail::new("the choice is refused")),
    }
}
