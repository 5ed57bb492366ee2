// Opening: each of the eight questions, the model that comes back, and the limit at its greatest.
use crate::setting::{opened, small};
use calls::Status;
use controller::Controller;
use model::{BitModel, Settings};
use stair::Stair;
use std::process::Abort;
use std::test::Fail;

// The number that opening answers, with a model that comes back as it was; 0 where it is accepted, so that what is
// expected stands as the rules number it.
fn number(rt: &impl Abort, settings: Settings) -> Result<u8, Fail> {
    let stair = Stair::new([[5; 64]; 4])?;
    match Controller::open(&settings, stair) {
        Ok(_) => Ok(0),
        Err(unopened) => {
            assert_eq!(rt; unopened.model.predict(2, 0), 5);
            Ok(unopened.refusal.number())
        }
    }
}

#[test]
fn questions(rt: HostRuntime) -> Result<(), Fail> {
    let s = small(false);
    assert_eq!(rt; number(&rt, s)?, 0);
    assert_eq!(rt; number(&rt, Settings { height: 0, ..s })?, 1);
    assert_eq!(rt;
        number(
            &rt,
            Settings {
                denominator: 0,
                ..s
            }
        )?,
        2
    );
    assert_eq!(rt; number(&rt, Settings { bitrate: 0, ..s })?, 3);
    assert_eq!(rt; number(&rt, Settings { depth: 9, ..s })?, 4);
    assert_eq!(rt; number(&rt, Settings { sampling: 4, ..s })?, 5);
    assert_eq!(rt;
        number(
            &rt,
            Settings {
                lowest: 9,
                highest: Some(8),
                ..s
            }
        )?,
        6
    );
    assert_eq!(rt;
        number(
            &rt,
            Settings {
                delay: Some(11),
                ..s
            }
        )?,
        7
    );
    assert_eq!(rt;
        number(
            &rt,
            Settings {
                numerator: 1,
                bitrate: 2_147_483_647,
                delay: Some(17),
                ..s
            }
        )?,
        8
    );
    Ok(())
}

#[test]
fn greatest_limit(rt: HostRuntime) -> Result<(), Fail> {
    let s = Settings {
        numerator: 1,
        denominator: 2,
        bitrate: 1_073_741_832,
        delay: Some(16),
        ..small(false)
    };
    let controller = opened(&s, 0)?;
    assert_eq!(rt;
        controller.status(),
        Status {
            fullness: 1 << 34,
            credit: 1 << 31,
            limit: 1 << 35,
            rate_bias: 0,
            coded: 0,
            out: false,
        }
    );
    assert_eq!(rt;
        number(
            &rt,
            Settings {
                bitrate: 1_073_741_833,
                ..s
            }
        )?,
        8
    );
    Ok(())
}
