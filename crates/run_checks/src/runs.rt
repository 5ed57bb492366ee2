// Recorded calls and their answers, on the controller of the worked figures: 640 by 360 at 25/1 and 1,000,000 bits per
// second, with a delay of 12.
use crate::reports::report;
use calls::{Answer, Call, Refusal, Reported, Status};
use model::{Curve, Settings};
use outlook::NothingAhead;
use run::{Fault, NotRun, Run, run};
use std::alloc::Global;
use std::test::Fail;

const USUAL: Settings = Settings {
    width: 640,
    height: 360,
    numerator: 25,
    denominator: 1,
    bitrate: 1_000_000,
    depth: 8,
    sampling: 0,
    lowest: 0,
    highest: None,
    interval: 240,
    delay: Some(12),
    dropping: false,
};

const CHOOSE: Call = Call::Choose {
    subtype: 0,
    outlook: 0,
    previous: None,
    log_isqrt_mean_scale: 0,
};

// The fullness that a status tells.
fn fullness(answer: &Answer) -> Option<i64> {
    match answer {
        Answer::Told(status) => Some(status.fullness),
        _ => None,
    }
}

// The total and the tries of a choice with a ticket of that number.
fn choice(answer: &Answer, number: u64) -> Option<(i64, u32)> {
    match answer {
        Answer::Chosen { ticket, decision } if *ticket == number => Some((
            decision.total,
            decision.tries,
        )),
        _ => None,
    }
}

// The answers of a run over a fresh curve, with no outlooks.
fn answers_of(heap: Global, settings: Settings, calls: &[Call]) -> Result<Vec<Answer>, Fail> {
    let curve = Curve::new(&settings)?;
    let outlooks: [NothingAhead; 0] = [];
    match run(heap, &settings, curve, &outlooks, calls) {
        Ok(
            Run {
                controller: _,
                answers,
            },
        ) => Ok(answers),
        Err(_) => Err(Fail::new("not run")),
    }
}

// The first figures of a controller, a choice with nothing ahead, and a report.
#[test]
fn shown_report(rt: HostRuntime) -> Result<(), Fail> {
    let calls = [
        Call::Status,
        CHOOSE,
        report(1, 100_000, false),
        Call::Status,
    ];
    let answers = answers_of(rt.alloc(), USUAL, &calls)?;
    let opened = Answer::Told(Status {
        fullness: 239_904,
        credit: 39_984,
        limit: 479_808,
        rate_bias: 0,
        coded: 0,
        out: false,
    });
    let charged = Answer::Charged(Reported {
        charge: 100_000,
        dropped: false,
    });
    let [a, b, c, d] = answers.as_slice() else {
        return Err(Fail::new("not four answers"));
    };
    assert_eq!(rt; *a, opened);
    assert_eq!(rt; choice(b, 1), Some((0, 1)));
    assert_eq!(rt; *c, charged);
    assert_eq!(rt; fullness(d), Some(179_888));
    Ok(())
}

// With dropping on: a droppable frame of one bit more than fullness and one credit is dropped; it is shown, so the next
// may use a credit more, and of just as many bits it is charged.
#[test]
fn dropping(rt: HostRuntime) -> Result<(), Fail> {
    let settings = Settings {
        dropping: true,
        ..USUAL
    };
    let calls = [
        CHOOSE,
        report(1, 279_889, true),
        CHOOSE,
        report(2, 319_872, true),
        Call::Status,
    ];
    let answers = answers_of(rt.alloc(), settings, &calls)?;
    let [_, a, _, b, c] = answers.as_slice() else {
        return Err(Fail::new("not five answers"));
    };
    let dropped = Answer::Charged(Reported {
        charge: 0,
        dropped: true,
    });
    let charged = Answer::Charged(Reported {
        charge: 319_872,
        dropped: false,
    });
    assert_eq!(rt; *a, dropped);
    assert_eq!(rt; *b, charged);
    assert_eq!(rt; fullness(c), Some(0));
    Ok(())
}

// A refused call is answered by its refusal, and the next one is made.
#[test]
fn refused_calls(rt: HostRuntime) -> Result<(), Fail> {
    let calls = [
        report(0, 5, false),
        CHOOSE,
        CHOOSE,
        Call::Show,
        report(2, 5, false),
    ];
    let answers = answers_of(rt.alloc(), USUAL, &calls)?;
    let [a, b, c, d, e] = answers.as_slice() else {
        return Err(Fail::new("not five answers"));
    };
    assert_eq!(rt; *a, Answer::Refused(Refusal::NotThatTicket));
    assert_eq!(rt; choice(b, 1), Some((0, 1)));
    assert_eq!(rt; *c, Answer::Refused(Refusal::TicketOut));
    assert_eq!(rt; *d, Answer::Refused(Refusal::TicketOut));
    assert_eq!(rt; *e, Answer::Refused(Refusal::NotThatTicket));
    Ok(())
}

// The number of the question that refuses an opening; none where the run was performed or memory was wanting.
fn refused_opening(heap: Global, curve: Curve, settings: Settings) -> Option<u8> {
    let outlooks: [NothingAhead; 0] = [];
    match run(heap, &settings, curve, &outlooks, &[Call::Status]) {
        Ok(_) => None,
        Err(NotRun { fault, model: _ }) => match fault {
            Fault::Opening(refusal) => Some(refusal.number()),
            Fault::Memory => None,
        },
    }
}

#[test]
fn refused_settings(rt: HostRuntime) -> Result<(), Fail> {
    let curve = Curve::new(&USUAL)?;
    let none = Settings {
        bitrate: 0,
        ..USUAL
    };
    assert_eq!(rt; refused_opening(rt.alloc(), curve, none), Some(3));
    Ok(())
}
