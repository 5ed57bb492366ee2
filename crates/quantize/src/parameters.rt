// The indexes and scales of a frame, for a depth and a sampling that are known.
ghost use Rattle.std.specs.Prelude.{◌≡◌};
ghost use Rattle.quantize.specs.Indexes.{within, plane_quantizer, scale_of, plane_index, luma_index};
ghost use Rattle.quantize.specs.Answer.{parameters_of, Lawful};

use crate::answer::{QuantizerParameters, Scales};
use crate::scale::plane_scale;
use logexp::bexp64;
use planes::{ChromaSampling, chroma_offset, luma_log};
use tables::{Coefficient, Depth};

// How far an index may lie from the luma AC index: AV1's delta fields have six bits and a sign.
const REACH: u8 = 63;

// An index brought within reach of the luma AC index a, and to at least 1.
fn clamp_qi(qi: u8, a: u8) -> u8
    ensures { result ≡ within a qi }
{
    qi.clamp(a.saturating_sub(REACH).max(1), a.saturating_add(REACH))
}

// The scale of a plane with a log: the square of the ratio of the frame's quantizer to the plane's.
fn scale_of(log_target_q: i64, log_q: i64) -> f64
    ensures { result ≡ scale_of log_target_q log_q }
{
    let twice = log_target_q.saturating_sub(log_q).saturating_mul(2);
    plane_scale(bexp64(twice.saturating_add(16 << 57)))
}

// What the indexes of a frame are chosen at: its bit depth, and what is added to the log of each plane's quantizer.
#[derive(Clone, Copy)]
struct Scaling {
    depth: Depth,
    mean: i64,
}

impl Scaling {
    // The quantizer of a plane with a log, in the scale of the tables.
    fn plane_quantizer(self, log_q: i64) -> i64
        ensures { result ≡ plane_quantizer log_q self.depth self.mean }
    {
        let scale = self.mean.saturating_add(self.depth.log_scale());
        bexp64(log_q.saturating_add(scale))
    }

    // The index of a plane with a log in the table of a coefficient, beside the luma AC index a.
    fn plane_index(self, coefficient: Coefficient, a: u8, log_q: i64) -> u8
        ensures { result ≡ plane_index coefficient a log_q self.depth self.mean }
    {
        let quantizer = self.plane_quantizer(log_q);
        clamp_qi(self.depth.select_qi(coefficient, quantizer), a)
    }

    // The luma AC index, at least 1.
    fn luma_index(self, log_q: i64) -> u8
        ensures { result ≡ luma_index log_q self.depth self.mean }
    {
        let quantizer = self.plane_quantizer(log_q);
        self.depth.select_qi(Coefficient::Ac, quantizer).max(1)
    }
}

impl QuantizerParameters {
    // The quantizer of a frame with the log `log_target_q`, at a depth and a sampling that are known.
    // `log_base_q` is only carried; `log_isqrt_mean_scale` is added to the log of each plane's quantizer.
    pub fn of(
        log_base_q: i64,
        log_target_q: i64,
        depth: Depth,
        sampling: ChromaSampling,
        is_intra: bool,
        log_isqrt_mean_scale: i64,
    ) -> QuantizerParameters
        ensures value { result ≡ parameters_of log_base_q log_target_q depth sampling is_intra log_isqrt_mean_scale }
        ensures lawful { Lawful sampling result }
    {
        let scaling = Scaling {
            depth,
            mean: log_isqrt_mean_scale,
        };
        let log_q_y = luma_log(log_target_q, depth, sampling, is_intra);
        let offset = chroma_offset(log_q_y.saturating_add(log_isqrt_mean_scale), sampling);
        let log_q_u = log_q_y.saturating_add(offset.u);
        let log_q_v = log_q_y.saturating_add(offset.v);
        let a = scaling.luma_index(log_q_y);
        let dc_y = scaling.plane_index(Coefficient::Dc, a, log_q_y);
        let scale_y = scale_of(log_target_q, log_q_y);
        if sampling.is_monochrome() {
            return QuantizerParameters {
                log_base_q,
                log_target_q,
                dc_qi: [dc_y, 0, 0],
                ac_qi: [a, 0, 0],
                scales: Scales::Mono(scale_y),
            };
        }
        QuantizerParameters {
            log_base_q,
            log_target_q,
            dc_qi: [
                dc_y,
                scaling.plane_index(Coefficient::Dc, a, log_q_u),
                scaling.plane_index(Coefficient::Dc, a, log_q_v),
            ],
            ac_qi: [
                a,
                scaling.plane_index(Coefficient::Ac, a, log_q_u),
                scaling.plane_index(Coefficient::Ac, a, log_q_v),
            ],
            scales: Scales::Colour(
                scale_y,
                scale_of(log_target_q, log_q_u),
                scale_of(log_target_q, log_q_v),
            ),
        }
    }
}
