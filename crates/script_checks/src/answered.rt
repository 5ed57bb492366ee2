// The text of the replies to lines that have an answer.
use crate::replying::reply_by;
use calls::{Answer, Decision, Refusal, Reported, Status};
use quantize::{QuantizerParameters, Scales};
use scripts::Line;
use std::alloc::{AllocError, Global};
use std::test::Fail;

const STATUS: Status = Status {
    fullness: -5,
    credit: 24,
    limit: 288,
    rate_bias: -7,
    coded: 3,
    out: true,
};

// The text of the reply to a line by its answer.
fn told(heap: Global, line: Line, answer: Answer) -> Result<String, AllocError> {
    let reply = reply_by(line, answer);
    format!(in heap; "{reply}")
}

fn chosen(scales: Scales) -> Answer {
    Answer::Chosen {
        ticket: u64::MAX,
        decision: Decision {
            found: i64::MIN,
            total: -1,
            tries: 60,
            quantizer: QuantizerParameters {
                log_base_q: 7,
                log_target_q: i64::MAX,
                dc_qi: [1, 2, 3],
                ac_qi: [0, 255, 5],
                scales,
            },
        },
    }
}

#[test]
fn choices(rt: HostRuntime) -> Result<(), Fail> {
    let heap = rt.alloc();
    let line = Line::Choose {
        subtype: 0,
        previous: None,
        mean: 0,
    };
    assert_eq!(rt;
        told(heap, line, chosen(Scales::Mono(1.0)))?.as_str(),
        "choose ticket=18446744073709551615 found=-9223372036854775808 total=-1 tries=60 base=7 log_q=9223372036854775807 dc=1,2,3 ac=0,255,5 scales=1"
    );
    assert_eq!(rt;
        told(
            heap,
            line,
            chosen(Scales::Colour(0.5, 2.0, 0.0000152587890625)),
        )?
        .as_str(),
        "choose ticket=18446744073709551615 found=-9223372036854775808 total=-1 tries=60 base=7 log_q=9223372036854775807 dc=1,2,3 ac=0,255,5 scales=0.5,2,0.0000152587890625"
    );
    assert_eq!(rt;
        told(heap, line, Answer::Refused(Refusal::NoSuchSubtype))?.as_str(),
        "choose refused 12"
    );
    Ok(())
}

#[test]
fn frames(rt: HostRuntime) -> Result<(), Fail> {
    let heap = rt.alloc();
    let trial = Line::Trial { ticket: 1, bits: 0 };
    assert_eq!(rt; told(heap, trial, Answer::Tried)?.as_str(), "trial ok");
    assert_eq!(rt;
        told(heap, trial, Answer::Refused(Refusal::NoBits))?.as_str(),
        "trial refused 24"
    );
    let report = Line::Report {
        ticket: 1,
        bits: 9,
        shown: true,
        droppable: true,
    };
    let dropped = Reported {
        charge: 0,
        dropped: true,
    };
    assert_eq!(rt;
        told(heap, report, Answer::Charged(dropped))?.as_str(),
        "report charge=0 dropped=1"
    );
    assert_eq!(rt;
        told(heap, report, Answer::Refused(Refusal::NotThatTicket))?.as_str(),
        "report refused 21"
    );
    let withdraw = Line::Withdraw { ticket: 1 };
    assert_eq!(rt;
        told(heap, withdraw, Answer::Withdrawn)?.as_str(),
        "withdraw ok"
    );
    Ok(())
}

#[test]
fn figures(rt: HostRuntime) -> Result<(), Fail> {
    let heap = rt.alloc();
    assert_eq!(rt; told(heap, Line::Show, Answer::Shown)?.as_str(), "show ok");
    assert_eq!(rt;
        told(heap, Line::Show, Answer::Refused(Refusal::NoMoreFrames))?.as_str(),
        "show refused 13"
    );
    assert_eq!(rt;
        told(heap, Line::Status, Answer::Told(STATUS))?.as_str(),
        "status fullness=-5 credit=24 limit=288 bias=-7 coded=3 out=1"
    );
    Ok(())
}

#[test]
fn openings(rt: HostRuntime) -> Result<(), Fail> {
    let heap = rt.alloc();
    let Ok(script) = scripts::script_of(heap, b"open 1 1 1 1 1 8 0 0 - 1 - 0") else {
        return Err(Fail::new("refused"));
    };
    assert!(rt; script.lines.len() == 1);
    assert_eq!(rt;
        told(heap, script.lines[0], Answer::Told(STATUS))?.as_str(),
        "open credit=24 limit=288 fullness=-5"
    );
    Ok(())
}
