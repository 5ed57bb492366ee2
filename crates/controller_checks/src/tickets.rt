// Tickets: stale ones, those of another controller, and a frame's whole way.
use crate::client::coded;
use crate::setting::{NONE, choice, opened, report, small};
use calls::{Answer, Call, Refusal, Reported};
use controller::{Choice, Controller};
use outlook::NothingAhead;
use stair::Stair;
use std::test::Fail;

fn choose(controller: &mut Controller<Stair>, subtype: u8) -> Answer {
    controller.perform(&NONE, choice(subtype, None, 0))
}

fn reported(controller: &mut Controller<Stair>, ticket: u64) -> Answer {
    controller.perform(&NONE, report(ticket, 1_000, true, false))
}

fn trial(controller: &mut Controller<Stair>, ticket: u64, bits: u32) -> Answer {
    controller.perform(&NONE, Call::Trial { ticket, bits })
}

// The number of the ticket that a choice gave.
fn ticket_of(answer: Answer) -> Option<u64> {
    match answer {
        Answer::Chosen {
            ticket,
            decision: _,
        } => Some(ticket),
        _ => None,
    }
}

const CHARGED: Answer = Answer::Charged(Reported {
    charge: 1_000,
    dropped: false,
});

#[test]
fn stale(rt: HostRuntime) -> Result<(), Fail> {
    let mut c = opened(&small(false), 0)?;
    assert_eq!(rt;
        reported(&mut c, 0),
        Answer::Refused(Refusal::NotThatTicket),
        "no ticket is out"
    );
    assert_eq!(rt; ticket_of(choose(&mut c, 1)), Some(1));
    assert_eq!(rt; choose(&mut c, 1), Answer::Refused(Refusal::TicketOut));
    assert_eq!(rt;
        reported(&mut c, 0),
        Answer::Refused(Refusal::NotThatTicket)
    );
    assert_eq!(rt;
        reported(&mut c, 2),
        Answer::Refused(Refusal::NotThatTicket)
    );
    assert_eq!(rt;
        reported(&mut c, u64::MAX),
        Answer::Refused(Refusal::NotThatTicket)
    );
    assert_eq!(rt;
        c.perform(&NONE, Call::Withdraw { ticket: 2 }),
        Answer::Withdrawn
    );
    assert!(rt;
        c.status().out,
        "only the ticket that is out clears the mark"
    );
    assert_eq!(rt; reported(&mut c, 1), CHARGED);
    assert_eq!(rt;
        reported(&mut c, 1),
        Answer::Refused(Refusal::NotThatTicket),
        "it is spent"
    );
    assert_eq!(rt; ticket_of(choose(&mut c, 1)), Some(2));
    assert_eq!(rt;
        c.perform(&NONE, Call::Withdraw { ticket: 2 }),
        Answer::Withdrawn
    );
    assert!(rt; !c.status().out);
    Ok(())
}

#[test]
fn questions(rt: HostRuntime) -> Result<(), Fail> {
    let mut c = opened(&small(false), 0)?;
    assert_eq!(rt; choose(&mut c, 4), Answer::Refused(Refusal::NoSuchSubtype));
    assert_eq!(rt; ticket_of(choose(&mut c, 3)), Some(1));
    assert_eq!(rt;
        choose(&mut c, 4),
        Answer::Refused(Refusal::TicketOut),
        "11 comes before 12"
    );
    assert_eq!(rt;
        c.perform(&NONE, Call::Show),
        Answer::Refused(Refusal::TicketOut)
    );
    assert_eq!(rt;
        trial(&mut c, 2, 0),
        Answer::Refused(Refusal::NotThatTicket),
        "21 comes before 24"
    );
    assert_eq!(rt; trial(&mut c, 1, 0), Answer::Refused(Refusal::NoBits));
    assert_eq!(rt; trial(&mut c, 1, 1), Answer::Tried);
    assert_eq!(rt; ticket_of(choose(&mut c, 3)), Some(2));
    assert_eq!(rt; reported(&mut c, 2), CHARGED);
    assert_eq!(rt; ticket_of(choose(&mut c, 3)), Some(3));
    assert_eq!(rt;
        trial(&mut c, 3, 0),
        Answer::Refused(Refusal::NoTrialDue),
        "23 comes before 24"
    );
    assert_eq!(rt; reported(&mut c, 3), CHARGED);
    assert_eq!(rt; ticket_of(choose(&mut c, 2)), Some(4));
    assert_eq!(rt;
        trial(&mut c, 4, 1),
        Answer::Tried,
        "another subtype has no report yet"
    );
    Ok(())
}

#[test]
fn in_hand(rt: HostRuntime) -> Result<(), Fail> {
    let mut c = opened(&small(false), 0)?;
    assert!(rt; coded(&mut c, 0, 100_000).is_some());
    assert_eq!(rt; c.status().fullness, 179_888);
    assert!(rt; coded(&mut c, 9, 1).is_none());
    assert_eq!(rt; c.status().fullness, 179_888);
    Ok(())
}

// The ticket of one controller, reported at another: accepted where the numbers agree.
fn crossed(a: &mut Controller<Stair>, b: &mut Controller<Stair>) -> Option<Reported> {
    let Ok(
        Choice {
            ticket,
            decision: _,
        },
    ) = a.choose(1, &NothingAhead, None, 0)
    else {
        return None;
    };
    match b.report(ticket, 7, false, false) {
        Ok(reported) => Some(reported),
        Err(unspent) => {
            a.withdraw(unspent.ticket);
            None
        }
    }
}

#[test]
fn foreign(rt: HostRuntime) -> Result<(), Fail> {
    let mut a = opened(&small(false), 0)?;
    let mut b = opened(&small(false), 0)?;
    assert!(rt;
        crossed(&mut a, &mut b).is_none(),
        "no ticket of b's is out"
    );
    assert!(rt; !a.status().out);
    assert_eq!(rt; ticket_of(choose(&mut b, 1)), Some(1));
    assert!(rt; crossed(&mut a, &mut b).is_none(), "2 is not 1");
    assert_eq!(rt; reported(&mut b, 1), CHARGED);
    assert_eq!(rt; ticket_of(choose(&mut b, 1)), Some(2));
    assert_eq!(rt; reported(&mut b, 2), CHARGED);
    assert_eq!(rt; ticket_of(choose(&mut b, 1)), Some(3));
    assert!(rt; crossed(&mut a, &mut b).is_some(), "both are the third");
    assert!(rt; a.status().out && !b.status().out);
    Ok(())
}
