// The log quantizers of a frame's planes, from the frame's own.
ghost use Rattle.std.specs.Prelude.{◌≡◌};
ghost use Rattle.planes.specs.Planes.{offset_u, offset_v, gradient, model_mul, model_add, luma_log};

use crate::sampling::ChromaSampling;
use tables::Depth;

// How far the log quantizers of U and V lie from that of luma.
#[derive(Clone, Copy)]
pub struct ChromaOffset {
    pub u: i64,
    pub v: i64,
}

// What the chroma offsets lose as the quantizer grows: about 0.266, 0.180 or 0.098 of its log.
fn chroma_gradient(x: i64, sampling: ChromaSampling) -> i64
    ensures { result ≡ gradient x sampling }
{
    match sampling {
        ChromaSampling::Cs420 => (x >> 2).saturating_add(x >> 6),
        ChromaSampling::Cs422 => (x >> 3).saturating_add(x >> 4).saturating_sub(x >> 7),
        ChromaSampling::Cs444 => (x >> 4).saturating_add(x >> 5).saturating_add(x >> 8),
        ChromaSampling::Cs400 => 0,
    }
}

// The offsets at a log: blog64(7) - blog64(4) for U and blog64(5) - blog64(4) for V, less the gradient.
pub fn chroma_offset(log_target_q: i64, sampling: ChromaSampling) -> ChromaOffset
    ensures u { result.u ≡ offset_u log_target_q sampling }
    ensures v { result.v ≡ offset_v log_target_q sampling }
{
    let y = chroma_gradient(log_target_q.max(0), sampling);
    let u = 0x19D_5D9F_D501_0B37i64;
    let v = 0xA4_D3C2_5E68_DC58i64;
    ChromaOffset {
        u: u.saturating_sub(y),
        v: v.saturating_sub(y),
    }
}

// The slope of the line for 8-bit inter frames, in units of 2^-32.
fn model_mul(sampling: ChromaSampling) -> i64
    ensures { result ≡ model_mul sampling }
{
    match sampling {
        ChromaSampling::Cs420 => 0x8A0_50DD,
        ChromaSampling::Cs422 => 0x887_7666,
        ChromaSampling::Cs444 => 0x8D4_A712,
        ChromaSampling::Cs400 => 0,
    }
}

// The height of that line at 0.
fn model_add(sampling: ChromaSampling) -> i64
    ensures { result ≡ model_add sampling }
{
    match sampling {
        ChromaSampling::Cs420 => -0x24_4FE7_ECB3_DD90,
        ChromaSampling::Cs422 => -0x37_41DA_38AD_0924,
        ChromaSampling::Cs444 => -0x70_83BD_A626_311C,
        ChromaSampling::Cs400 => 0,
    }
}

// The log quantizer of luma: the frame's own, but for 8-bit inter frames, which follow a straight line.
pub fn luma_log(log_target_q: i64, depth: Depth, sampling: ChromaSampling, is_intra: bool) -> i64
    ensures { result ≡ luma_log log_target_q depth sampling is_intra }
{
    match depth {
        Depth::Eight => {
            if is_intra {
                log_target_q
            } else {
                let slope = (log_target_q >> 32).saturating_mul(model_mul(sampling));
                log_target_q
                    .saturating_add(slope)
                    .saturating_add(model_add(sampling))
            }
        }
        Depth::Ten => log_target_q,
        Depth::Twelve => log_target_q,
    }
}
