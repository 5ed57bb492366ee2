// The logs of AC entries, and the quantizer of an index without rate control.
ghost use Rattle.std.specs.Prelude.{◌≡◌, true};
ghost use Rattle.logexp.specs.Held.{◌⊖◌};
ghost use Rattle.tables.specs.Depths.{depth_log};
ghost use Rattle.flat.specs.Flat.{log_under, entry_log, ac_log, matching, middle, flat_base, flat_of, Near, LogsOrdered};

use crate::subtype::Subtype;
use logexp::blog64;
use tables::{Coefficient, Depth};

// The log of the base and of a frame's quantizer, in Q57.
#[derive(Clone, Copy)]
pub struct FlatQuantizer {
    pub log_base_q: i64,
    pub log_q: i64,
}

// A log at a depth as that of a quantizer of 8-bit samples.
fn scaled(log: i64, depth: Depth) -> i64
    ensures { result ≡ log ⊖ depth_log depth }
{
    log.saturating_sub(depth.log_scale())
}

// The log of a table's entry as a quantizer of 8-bit samples.
// That logs are near 0 stays in clauses: callers reckon with an i64, and would only unwrap a type that held the bound.
fn entry_log(entry: u16, depth: Depth) -> i64
    ensures value { result ≡ entry_log entry depth }
    ensures near { log_under depth entry ≡ true → Near 8 result }
{
    scaled(blog64(entry as i64), depth)
}

// The middle of two logs, rounded up.
fn midway(a: i64, b: i64) -> i64
    ensures { result ≡ middle a b }
{
    a.saturating_add(b).saturating_add(1) >> 1
}

// The log of the AC entry of an index, less depth - 5 doublings: between -8 and 8 doublings.
pub fn ac_log(qindex: u8, depth: Depth) -> i64
    ensures value { result ≡ ac_log qindex depth }
    ensures near { Near 8 result }
{
    entry_log(depth.q(Coefficient::Ac, qindex), depth)
}

// The DC entry that stands for an AC entry.
fn matching_dc(entry: u16, depth: Depth) -> u16
    ensures { result ≡ matching entry depth }
{
    let qindex = depth.select_qi(Coefficient::Dc, entry as i64);
    depth.q(Coefficient::Dc, qindex)
}

// The base log of an index without rate control: midway between the logs of its AC entry and of the DC entry
// that stands for it. Between -8 and 8 doublings.
pub fn flat_log(qindex: u8, depth: Depth) -> i64
    ensures value { result ≡ flat_base qindex depth }
    ensures near { Near 8 result }
{
    let ac = depth.q(Coefficient::Ac, qindex);
    let dc = matching_dc(ac, depth);
    midway(entry_log(ac, depth), entry_log(dc, depth))
}

// The quantizer of a frame of a subtype at an index, without rate control: its log lies within 16 doublings of 0.
pub fn calc_flat_quantizer(base_qi: u8, depth: Depth, subtype: Subtype) -> FlatQuantizer
    ensures value { result ≡ flat_of base_qi depth subtype }
    ensures near { Near 16 result.log_q }
{
    let log_base_q = flat_log(base_qi, depth);
    FlatQuantizer {
        log_base_q,
        log_q: subtype.log_q(log_base_q),
    }
}

// The logs of the AC entries, and the base logs without rate control, never fall from one index to the next.
pub fn logs_stand() -> u8
    ensures { LogsOrdered }
{
    0
}
