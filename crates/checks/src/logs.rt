// The logarithm and the exponential at their ends and around powers of two.
use logexp::{bexp64, blog64};

const DOUBLING: i64 = 1 << 57;

#[test]
fn logarithm(rt: HostRuntime) {
    assert_eq!(rt; blog64(i64::MIN), -1);
    assert_eq!(rt; blog64(-1), -1);
    assert_eq!(rt; blog64(0), -1);
    assert_eq!(rt; blog64(1), 0);
    assert_eq!(rt; blog64(2), DOUBLING);
    assert_eq!(rt; blog64(3), 228_417_168_884_608_271);
    assert_eq!(rt; blog64(1000), 1_436_220_876_507_485_448);
    assert_eq!(rt; blog64(1 << 62), 62 * DOUBLING);
    assert_eq!(rt; blog64((1 << 62) + 1), 62 * DOUBLING);
    assert_eq!(rt; blog64(i64::MAX), 63 * DOUBLING);
}

#[test]
fn exponential(rt: HostRuntime) {
    assert_eq!(rt; bexp64(i64::MIN), 0);
    assert_eq!(rt; bexp64(-1), 0);
    assert_eq!(rt; bexp64(0), 1);
    assert_eq!(rt; bexp64(DOUBLING), 2);
    assert_eq!(rt; bexp64(62 * DOUBLING), 1 << 62);
    assert_eq!(rt; bexp64(63 * DOUBLING - 1), 9_223_372_036_854_775_790);
    assert_eq!(rt; bexp64(63 * DOUBLING), i64::MAX);
    assert_eq!(rt; bexp64(i64::MAX), i64::MAX);
    assert_eq!(rt; bexp64(blog64(29_247)), 29_247);
}
