// The eight questions on both sides of every bound, their order, and the figures of accepted settings.
use crate::operands::USUAL;
use crate::refusals::number;
use model::Settings;
use quantize::ChromaSampling;
use std::process::Abort;
use std::test::Fail;
use tables::Depth;

fn size(width: u32, height: u32) -> u8 {
    number(Settings {
        width,
        height,
        ..USUAL
    })
}

#[test]
fn sizes(rt: HostRuntime) {
    assert_eq!(rt; size(0, 360), 1);
    assert_eq!(rt; size(1, 1), 0);
    assert_eq!(rt; size(65_536, 65_536), 0);
    assert_eq!(rt; size(65_537, 360), 1);
    assert_eq!(rt; size(640, 0), 1);
    assert_eq!(rt; size(640, 65_537), 1);
    assert_eq!(rt; size(640, u32::MAX), 1);
}

fn rate(bitrate: u32, numerator: u32, denominator: u32) -> u8 {
    number(Settings {
        bitrate,
        numerator,
        denominator,
        ..USUAL
    })
}

#[test]
fn rates(rt: HostRuntime) {
    assert_eq!(rt; rate(1, 0, 1), 2);
    assert_eq!(rt; rate(1, 1, 1), 0);
    assert_eq!(rt; rate(1, 1_000_000, 1_000_000), 0);
    assert_eq!(rt; rate(1, 1_000_001, 1), 2);
    assert_eq!(rt; rate(1, 25, 0), 2);
    assert_eq!(rt; rate(1, 25, 1_000_001), 2);
    assert_eq!(rt; rate(0, 25, 1), 3);
    assert_eq!(rt; rate(2_147_483_647, 25, 1), 0);
    assert_eq!(rt; rate(2_147_483_648, 25, 1), 3);
}

fn kind(depth: u8, sampling: u8) -> u8 {
    number(Settings {
        depth,
        sampling,
        ..USUAL
    })
}

#[test]
fn depths_and_samplings(rt: HostRuntime) {
    assert_eq!(rt; kind(7, 0), 4);
    assert_eq!(rt; kind(9, 0), 4);
    assert_eq!(rt; kind(10, 1), 0);
    assert_eq!(rt; kind(11, 0), 4);
    assert_eq!(rt; kind(12, 2), 0);
    assert_eq!(rt; kind(13, 0), 4);
    assert_eq!(rt; kind(8, 3), 0);
    assert_eq!(rt; kind(8, 4), 5);
    assert_eq!(rt; kind(8, 255), 5);
}

fn range(lowest: u8, highest: Option<u8>) -> u8 {
    number(Settings {
        lowest,
        highest,
        ..USUAL
    })
}

#[test]
fn indexes(rt: HostRuntime) {
    assert_eq!(rt; range(255, None), 0);
    assert_eq!(rt; range(10, Some(9)), 6);
    assert_eq!(rt; range(10, Some(10)), 0);
    assert_eq!(rt; range(255, Some(254)), 6);
    assert_eq!(rt; range(255, Some(255)), 0);
}

fn timing(interval: u32, delay: Option<u32>) -> u8 {
    number(Settings {
        interval,
        delay,
        ..USUAL
    })
}

#[test]
fn timings(rt: HostRuntime) {
    assert_eq!(rt; timing(0, None), 7);
    assert_eq!(rt; timing(1, None), 0);
    assert_eq!(rt; timing(10_000, None), 0);
    assert_eq!(rt; timing(10_001, None), 7);
    assert_eq!(rt; timing(240, Some(11)), 7);
    assert_eq!(rt; timing(240, Some(12)), 0);
    assert_eq!(rt; timing(240, Some(1_024)), 0);
    assert_eq!(rt; timing(240, Some(1_025)), 7);
}

// A limit of 1,024 times what a bitrate at one frame per second brings.
fn limit(bitrate: u32, denominator: u32) -> u8 {
    number(Settings {
        bitrate,
        denominator,
        numerator: 1,
        delay: Some(1_024),
        ..USUAL
    })
}

#[test]
fn limits(rt: HostRuntime) {
    assert_eq!(rt; limit(33_554_448, 1), 0, "2^35");
    assert_eq!(rt; limit(33_554_449, 1), 8);
    assert_eq!(rt; limit(2_147_483_647, 1_000_000), 8);
}

#[test]
fn order(rt: HostRuntime) {
    let mut settings = USUAL;
    settings.bitrate = 2_147_483_647;
    settings.numerator = 1;
    assert_eq!(rt; number(settings), 0);
    settings.delay = Some(1_024);
    assert_eq!(rt; number(settings), 8);
    settings.interval = 0;
    assert_eq!(rt; number(settings), 7);
    settings.lowest = 1;
    settings.highest = Some(0);
    assert_eq!(rt; number(settings), 6);
    settings.sampling = 4;
    assert_eq!(rt; number(settings), 5);
    settings.depth = 0;
    assert_eq!(rt; number(settings), 4);
    settings.bitrate = 0;
    assert_eq!(rt; number(settings), 3);
    settings.numerator = 0;
    assert_eq!(rt; number(settings), 2);
    settings.height = 0;
    assert_eq!(rt; number(settings), 1);
}

// Settings at 25 frames per second come to these figures.
fn opens(
    rt: &impl Abort,
    bitrate: u32,
    interval: u32,
    delay: Option<u32>,
    figures: (i64, u32, i64, i64),
) -> Result<(), Fail> {
    let accepted = Settings {
        bitrate,
        interval,
        delay,
        ..USUAL
    }
    .accept()?;
    let (credit, units, limit, target) = figures;
    assert_eq!(rt; accepted.credit, credit);
    assert_eq!(rt; accepted.delay, units);
    assert_eq!(rt; accepted.limit, limit);
    assert_eq!(rt; accepted.target, target);
    Ok(())
}

#[test]
fn figures(rt: HostRuntime) -> Result<(), Fail> {
    opens(
        &rt,
        1_000_000,
        240,
        Some(12),
        (39_984, 12, 479_808, 239_904),
    )?;
    opens(&rt, 1, 240, Some(12), (24, 12, 288, 144))?;
    opens(&rt, 25 * 40, 240, Some(12), (24, 12, 288, 144))?;
    opens(&rt, 25 * 41, 240, Some(13), (25, 13, 325, 163))?;
    opens(&rt, 25 * 42 - 1, 240, Some(12), (25, 12, 300, 150))?;
    opens(&rt, 1, 1, None, (24, 12, 288, 144))?;
    opens(&rt, 1, 9, None, (24, 13, 312, 156))?;
    opens(&rt, 1, 159, None, (24, 238, 5_712, 2_856))?;
    opens(&rt, 1, 160, None, (24, 240, 5_760, 2_880))?;
    opens(&rt, 1, 10_000, None, (24, 240, 5_760, 2_880))
}

#[test]
fn example(rt: HostRuntime) -> Result<(), Fail> {
    let mut settings = USUAL;
    settings.depth = 10;
    settings.sampling = 3;
    settings.lowest = 7;
    settings.highest = Some(200);
    settings.dropping = true;
    let accepted = settings.accept()?;
    assert_eq!(rt; accepted.depth, Depth::Ten);
    assert_eq!(rt; accepted.sampling, ChromaSampling::Cs400);
    assert_eq!(rt; accepted.lowest, 7);
    assert_eq!(rt; accepted.highest, Some(200));
    assert_eq!(rt; accepted.dropping, true);
    Ok(())
}
