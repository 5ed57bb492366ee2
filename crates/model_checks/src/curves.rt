// The curve model: its first counts, its lessons and what it trims, against figures that were reckoned apart from it.
use crate::operands::{ONE, USUAL, lesson, room};
use model::{BitModel, Curve, Refusal, Settings};
use std::process::Abort;
use std::test::Fail;

// The bits that a curve predicts of the subtypes 0 to 3 at a log quantizer.
fn predicts(
    rt: &impl Abort,
    curve: &Curve,
    log_q: i64,
    bits: [i64; 4],
    note: &str,
) -> Result<(), Fail> {
    for (subtype, wanted) in (0..4).zip(bits) {
        assert_eq!(rt; curve.predict(subtype, log_q), wanted, "{note}");
    }
    assert_eq!(rt; curve.predict(4, log_q), 0, "{note}");
    Ok(())
}

#[test]
fn fresh(rt: HostRuntime) -> Result<(), Fail> {
    let curve = Curve::new(&USUAL)?;
    predicts(
        &rt,
        &curve,
        4 * ONE,
        [132_213, 26_729, 10_819, 5_868],
        "as it is made",
    )?;
    predicts(&rt, &curve, i64::MAX, [0, 0, 0, 0], "at the highest log")?;
    predicts(
        &rt,
        &curve,
        i64::MIN,
        [i64::MAX, i64::MAX, i64::MAX, i64::MAX],
        "at the lowest log",
    )?;
    assert_eq!(rt; curve.predict(255, i64::MIN), 0);
    Ok(())
}

#[test]
fn refused(rt: HostRuntime) {
    let made = Curve::new(&Settings {
        depth: 9,
        sampling: 9,
        ..USUAL
    });
    assert_eq!(rt; made.err(), Some(Refusal::Depth));
}

// A curve at so many pixels to a bit, at a log quantizer of 0.
fn at(rt: &impl Abort, pixels: u32, bits: [i64; 4], note: &str) -> Result<(), Fail> {
    let curve = Curve::new(&Settings {
        width: pixels,
        height: 1,
        bitrate: 1,
        numerator: 1,
        ..USUAL
    })?;
    predicts(rt, &curve, 0, bits, note)
}

#[test]
fn thresholds(rt: HostRuntime) -> Result<(), Fail> {
    at(&rt, 23, [104, 92, 86, 78], "below 1 pixel to a bit")?;
    at(&rt, 24, [165, 96, 90, 81], "1")?;
    at(&rt, 24 * 2, [330, 504, 408, 504], "2")?;
    at(&rt, 24 * 3, [495, 756, 612, 756], "3")?;
    at(&rt, 24 * 4, [1_548, 1_008, 816, 1_008], "4")?;
    at(&rt, 24 * 91, [35_217, 22_932, 18_564, 22_932], "91")?;
    at(&rt, 24 * 92, [35_604, 23_184, 1_104, 23_184], "92")?;
    at(&rt, 24 * 125, [48_375, 31_500, 1_500, 31_500], "125")?;
    at(&rt, 24 * 126, [48_762, 31_752, 1_512, 378], "126")?;
    at(&rt, 24 * 138, [53_406, 34_776, 1_656, 414], "138")?;
    at(&rt, 24 * 139, [53_793, 7_923, 1_668, 417], "139")
}

#[test]
fn lessons(rt: HostRuntime) -> Result<(), Fail> {
    let mut curve = Curve::new(&USUAL)?;
    curve.learn(lesson(0, 100_000, 4 * ONE, false, 0));
    predicts(
        &rt,
        &curve,
        4 * ONE,
        [100_000, 26_729, 10_819, 5_868],
        "what was seen, and the others as they were",
    )?;
    curve.learn(lesson(0, 50_000, 4 * ONE, false, 1));
    assert_eq!(rt; curve.predict(0, 4 * ONE), 74_300);
    curve.learn(lesson(0, 70_000, 3 * ONE, true, 9));
    assert_eq!(rt; curve.predict(0, 3 * ONE), 70_000, "a trial begins anew");
    curve.learn(lesson(0, 0, 3 * ONE, true, 0));
    curve.learn(lesson(4, 1, 3 * ONE, true, 0));
    assert_eq!(rt; curve.predict(0, 3 * ONE), 70_000, "nothing learnt");
    curve.learn(lesson(1, u32::MAX, i64::MAX, false, 0));
    assert_eq!(rt; curve.predict(1, i64::MAX), 0);
    assert_eq!(rt;
        curve.predict(1, 0),
        15_099_494_400,
        "the scale is cut at 16 doublings"
    );
    curve.learn(lesson(2, 1, i64::MIN, false, 0));
    assert_eq!(rt;
        curve.predict(2, i64::MIN),
        230_400,
        "the scale is held at its least"
    );
    Ok(())
}

#[test]
fn many_lessons(rt: HostRuntime) -> Result<(), Fail> {
    let mut curve = Curve::new(&Settings {
        delay: Some(1_024),
        ..USUAL
    })?;
    for i in 0u32..60 {
        curve.learn(lesson(
            (i % 4) as u8,
            i * 7_919 % 100_000 + 1,
            (i % 7) as i64 * (ONE / 2),
            false,
            i / 4,
        ));
    }
    predicts(
        &rt,
        &curve,
        3 * ONE,
        [3_468, 6_549, 5_212, 3_640],
        "after many lessons",
    )
}

#[test]
fn lengthening(rt: HostRuntime) -> Result<(), Fail> {
    let mut curve = Curve::new(&Settings {
        delay: Some(1_024),
        ..USUAL
    })?;
    for i in 0u32..40 {
        curve.learn(lesson(1, 5_000 + i, 4 * ONE, false, i));
    }
    assert_eq!(rt; curve.predict(1, 4 * ONE), 5_033);
    Ok(())
}

#[test]
fn trims(rt: HostRuntime) -> Result<(), Fail> {
    let curve = Curve::new(&USUAL)?;
    assert_eq!(rt;
        curve.trim(1, 4 * ONE, room(479_808, 39_984, 479_808, true)),
        484_185_507_609_585_536,
        "the soft limit"
    );
    assert_eq!(rt;
        curve.trim(0, -4 * ONE, room(239_904, 39_984, 479_808, false)),
        459_663_339_990_520_512,
        "the hard limit"
    );
    assert_eq!(rt;
        curve.trim(0, -4 * ONE, room(239_904, 39_984, 479_808, true)),
        -4 * ONE,
        "a highest index"
    );
    assert_eq!(rt;
        curve.trim(4, ONE, room(479_808, 39_984, 479_808, false)),
        ONE,
        "no such subtype"
    );
    assert_eq!(rt;
        curve.trim(1, ONE, room(479_808, 39_984, 0, false)),
        ONE,
        "no limit"
    );
    assert_eq!(rt;
        curve.trim(2, ONE, room(1, 1, 1, false)),
        1_606_499_581_297_796_032,
        "a margin of 1"
    );
    assert_eq!(rt;
        curve.trim(2, ONE, room(0, 0, 1, false)),
        1_606_499_581_297_796_032
    );
    assert_eq!(rt;
        curve.trim(2, 5 * ONE, room(i64::MAX, i64::MAX, 1, true)),
        -3_235_770_739_525_156_800
    );
    Ok(())
}

#[test]
fn trims_at_the_ends(rt: HostRuntime) -> Result<(), Fail> {
    let curve = Curve::new(&USUAL)?;
    assert_eq!(rt;
        curve.trim(3, i64::MAX, room(239_904, 39_984, 479_808, false)),
        i64::MAX
    );
    assert_eq!(rt;
        curve.trim(3, i64::MIN, room(239_904, 39_984, 479_808, false)),
        213_565_766_232_199_040
    );
    assert_eq!(rt;
        curve.trim(3, i64::MAX, room(479_808, 39_984, 479_808, true)),
        362_268_293_463_286_976
    );
    assert_eq!(rt;
        curve.trim(3, 0, room(i64::MIN, i64::MIN, i64::MAX, false)),
        1_407_134_797_760_870_784
    );
    assert_eq!(rt;
        curve.trim(3, 0, room(i64::MAX, i64::MAX, i64::MAX, true)),
        -18_190_342_784
    );
    Ok(())
}
