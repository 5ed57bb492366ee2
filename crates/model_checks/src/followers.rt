// The tangent and the parameters of the delays 4 and 10, and a follower from step to step.
use bessel::{IIRBessel2, Parameters, iir_bessel2_get_parameters, warp_alpha};
use std::process::Abort;
use std::test::Fail;

const ONE: i32 = 1 << 24;

#[test]
fn tangents(rt: HostRuntime) {
    assert_eq!(rt; warp_alpha(0), 0);
    assert_eq!(rt; warp_alpha((1 << 24) / 4), 4096);
    assert_eq!(rt; warp_alpha((1 << 24) / 10), 1333);
    assert_eq!(rt; warp_alpha((1 << 24) / 512), 25);
    assert_eq!(rt; warp_alpha(17 * (1 << 24) / 36 + 1), 46_817);
}

// The parameters of a delay, in their order.
fn parameters(
    rt: &impl Abort,
    delay: u32,
    c0: i32,
    c1: i32,
    g: i32,
    note: &str,
) -> Result<(), Fail> {
    assert_eq!(rt;
        iir_bessel2_get_parameters(delay),
        Parameters { c0, c1, g },
        "{note}"
    );
    Ok(())
}

#[test]
fn delays(rt: HostRuntime) -> Result<(), Fail> {
    parameters(&rt, 0, -9_586_981, -2_396_745, 7_190_235, "as 4")?;
    parameters(&rt, 3, -9_586_981, -2_396_745, 7_190_235, "as 4")?;
    parameters(&rt, 4, -9_586_981, -2_396_745, 7_190_235, "delay 4")?;
    parameters(&rt, 10, 9_979_394, -2_497_002, 2_323_706, "delay 10")?;
    parameters(&rt, 11, 11_596_557, -2_953_130, 2_033_447, "delay 11")?;
    parameters(&rt, 512, 32_943_415, -16_173_563, 1_841, "delay 512")?;
    parameters(
        &rt,
        u32::MAX,
        33_510_735,
        -16_733_531,
        3,
        "delay of the most",
    )
}

#[test]
fn steps(rt: HostRuntime) {
    let mut follower = IIRBessel2::new(10, ONE);
    assert_eq!(rt; follower.last(), ONE);
    assert_eq!(rt; follower.update(2 * ONE), 19_100_922);
    assert_eq!(rt; follower.update(2 * ONE), 25_130_517);
    assert_eq!(rt; follower.update(2 * ONE), 30_694_892);
    assert_eq!(rt; follower.last(), 30_694_892);
    follower.reinit(4);
    assert_eq!(rt; follower.last(), 30_694_892);
    follower.restart(-ONE);
    assert_eq!(rt; follower.last(), -ONE);
    assert_eq!(rt; follower.update(-ONE), -ONE + 2, "the weights are rounded");
}

#[test]
fn wraps(rt: HostRuntime) {
    let mut follower = IIRBessel2::new(10, 0);
    for _ in 0..4 {
        let _ = follower.update(i32::MAX);
    }
    assert_eq!(rt; follower.last(), 2_090_248_336);
    assert_eq!(rt;
        follower.update(i32::MAX),
        -2_127_052_258,
        "the low 32 bits, signed"
    );
}
