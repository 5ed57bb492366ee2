// How replies are written.
ghost use Rattle.std.specs.Prelude.{Some};
ghost use Rattle.replies.specs.Texts.{name_text, reply_text};

use crate::reply::{Name, Reply};
use calls::{Decision, Reported, Status};
use std::fmt;

impl fmt::Display for Name {
    ghost output = { λ name. Some (name_text name) };

    fn fmt<W: fmt::Write>(&self, f: &mut fmt::Formatter<W>) -> fmt::Result {
        f.write_str(match self {
            Name::Curve => "curve",
            Name::Stair => "stair",
            Name::List => "list",
            Name::Pattern => "pattern",
            Name::Open => "open",
            Name::Choose => "choose",
            Name::Trial => "trial",
            Name::Report => "report",
            Name::Withdraw => "withdraw",
            Name::Show => "show",
            Name::Status => "status",
        })
    }
}

impl fmt::Display for Reply {
    ghost output = { reply_text };

    fn fmt<W: fmt::Write>(&self, f: &mut fmt::Formatter<W>) -> fmt::Result {
        match *self {
            Reply::Accepted(name) => write!(f, "{name} ok"),
            Reply::Refused(name, reason) => write!(f, "{name} refused {reason}"),
            Reply::Closed(name) => write!(f, "{name} closed"),
            Reply::Opened(
                Status {
                    credit,
                    limit,
                    fullness,
                    ..
                },
            ) => write!(f, "open credit={credit} limit={limit} fullness={fullness}"),
            Reply::Chosen {
                ticket,
                decision: Decision {
                    found,
                    total,
                    tries,
                    quantizer,
                },
            } => {
                let base = quantizer.log_base_q;
                let log_q = quantizer.log_target_q;
                write!(
                    f,
                    "choose ticket={ticket} found={found} total={total} tries={tries} base={base} log_q={log_q} {quantizer}"
                )
            }
            Reply::Charged(Reported { charge, dropped }) => {
                let dropped = dropped as u8;
                write!(f, "report charge={charge} dropped={dropped}")
            }
            Reply::Told(
                Status {
                    fullness,
                    credit,
                    limit,
                    rate_bias,
                    coded,
                    out,
                },
            ) => {
                let out = out as u8;
                write!(
                    f,
                    "status fullness={fullness} credit={credit} limit={limit} bias={rate_bias} coded={coded} out={out}"
                )
            }
        }
    }
}
