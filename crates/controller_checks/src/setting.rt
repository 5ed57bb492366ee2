// What the tests open, and the calls that they make.
use calls::Call;
use controller::Controller;
use model::Settings;
use outlook::NothingAhead;
use stair::Stair;
use std::test::Fail;

// 640 by 360 at 25 frames and 1,000,000 bits a second, a delay of 12: credit 39,984, limit 479,808, fullness 239,904.
pub fn small(dropping: bool) -> Settings {
    Settings {
        width: 640,
        height: 360,
        numerator: 25,
        denominator: 1,
        bitrate: 1_000_000,
        depth: 8,
        sampling: 0,
        lowest: 0,
        highest: None,
        interval: 240,
        delay: Some(12),
        dropping,
    }
}

// A controller over a stair whose counts are all the same.
pub fn opened(settings: &Settings, count: u32) -> Result<Controller<Stair>, Fail> {
    let stair = Stair::new([[count; 64]; 4])?;
    match Controller::open(settings, stair) {
        Ok(controller) => Ok(controller),
        Err(_) => Err(Fail::new("the settings are refused")),
    }
}

// No outlooks, so that every place stands for no entries.
pub const NONE: [NothingAhead; 0] = [];

// A choice by the outlook at place 0.
pub fn choice(subtype: u8, previous: Option<i64>, log_isqrt_mean_scale: i64) -> Call {
    Call::Choose {
        subtype,
        outlook: 0,
        previous,
        log_isqrt_mean_scale,
    }
}

// A report, by its parts in their order.
pub fn report(ticket: u64, bits: u32, shown: bool, droppable: bool) -> Call {
    Call::Report {
        ticket,
        bits,
        shown,
        droppable,
    }
}
