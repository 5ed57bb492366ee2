// The quantizer's refusals in their order, the ends of its tables, and its answers for whole frames.
use crate::refusals::number;
use flat::{NoSuchSubtype, Subtype};
use quantize::{Coefficient, QuantizerParameters, Refusal, Scales, q, select_qi};
use std::process::Abort;
use std::test::Fail;

fn refuses_depth(rt: &impl Abort, depth: u8) {
    assert_eq!(rt; q(Coefficient::Ac, 0, depth), Err(Refusal::NoSuchDepth));
    assert_eq!(rt; q(Coefficient::Dc, 255, depth), Err(Refusal::NoSuchDepth));
    assert_eq!(rt;
        select_qi(Coefficient::Ac, 4, depth),
        Err(Refusal::NoSuchDepth)
    );
    assert_eq!(rt;
        select_qi(Coefficient::Dc, 4, depth),
        Err(Refusal::NoSuchDepth)
    );
    assert_eq!(rt; number(depth, 0), 4);
}

#[test]
fn depths(rt: HostRuntime) {
    refuses_depth(&rt, 0);
    refuses_depth(&rt, 7);
    refuses_depth(&rt, 9);
    refuses_depth(&rt, 11);
    refuses_depth(&rt, 13);
    refuses_depth(&rt, 255);
    assert_eq!(rt; number(8, 0), 0);
    assert_eq!(rt; number(10, 0), 0);
    assert_eq!(rt; number(12, 0), 0);
}

#[test]
fn samplings(rt: HostRuntime) {
    assert_eq!(rt; number(8, 3), 0);
    assert_eq!(rt; number(8, 4), 5);
    assert_eq!(rt; number(12, 255), 5);
    assert_eq!(rt; number(9, 4), 4, "the depth is asked first");
}

#[test]
fn tables(rt: HostRuntime) {
    assert_eq!(rt; q(Coefficient::Ac, 0, 8), Ok(4));
    assert_eq!(rt; q(Coefficient::Ac, 255, 8), Ok(1828));
    assert_eq!(rt; q(Coefficient::Dc, 255, 10), Ok(5347));
    assert_eq!(rt; q(Coefficient::Ac, 255, 12), Ok(29247));
    assert_eq!(rt; select_qi(Coefficient::Dc, 3, 8), Ok(0));
    assert_eq!(rt;
        select_qi(Coefficient::Dc, 8, 8),
        Ok(1),
        "the lower of two equal entries"
    );
    assert_eq!(rt; select_qi(Coefficient::Dc, 86, 8), Ok(96));
    assert_eq!(rt; select_qi(Coefficient::Ac, i64::MIN, 8), Ok(0));
    assert_eq!(rt; select_qi(Coefficient::Ac, i64::MAX, 12), Ok(255));
}

#[test]
fn frames(rt: HostRuntime) -> Result<(), Fail> {
    let Ok(mono) = QuantizerParameters::new_from_log_q(7, 0, 8, 3, true, 0) else {
        return Err(Fail::new("refused"));
    };
    assert_eq!(rt; mono.log_base_q, 7);
    assert_eq!(rt; mono.log_target_q, 0);
    assert_eq!(rt; mono.dc_qi[1], 0);
    assert_eq!(rt; mono.ac_qi[2], 0);
    assert_eq!(rt; mono.scales, Scales::Mono(1.0));
    let Ok(far) = QuantizerParameters::new_from_log_q(0, i64::MAX, 10, 2, false, i64::MAX) else {
        return Err(Fail::new("refused"));
    };
    assert_eq!(rt; far.ac_qi[0], 255);
    Ok(())
}

#[test]
fn subtypes(rt: HostRuntime) {
    assert_eq!(rt; Subtype::try_from(3), Ok(Subtype::B1));
    assert_eq!(rt; Subtype::try_from(4), Err(NoSuchSubtype));
    assert_eq!(rt; Subtype::P.log_q(2047), 0);
    assert_eq!(rt; Subtype::P.log_q(2048), 4096);
}
