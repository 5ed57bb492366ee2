// The quantizer of a frame by raw numbers; a bad depth or sampling is refused. They are numbers here, since this call
// is for callers that have not asked yet; `QuantizerParameters::of` is for those that have.
ghost use Rattle.std.specs.Prelude.{◌≡◌};
ghost use Rattle.quantize.specs.Answer.{Lawful};
ghost use Rattle.quantize.specs.Call.{quantizer_answer, AtSampling};

use crate::answer::QuantizerParameters;
use planes::ChromaSampling;
use raw_tables::Refusal;
use tables::Depth;

impl QuantizerParameters {
    // The quantizer of a frame with the log `log_target_q`, as `of` has it.
    // Refused: 4 where the depth is not 8, 10 or 12; then 5 where the sampling is not 0, 1, 2 or 3.
    pub fn new_from_log_q(
        log_base_q: i64,
        log_target_q: i64,
        bit_depth: u8,
        chroma_sampling: u8,
        is_intra: bool,
        log_isqrt_mean_scale: i64,
    ) -> Result<QuantizerParameters, Refusal>
        ensures value { result ≡ quantizer_answer log_base_q log_target_q bit_depth chroma_sampling is_intra log_isqrt_mean_scale }
        ensures lawful { AtSampling chroma_sampling result (λ s. Lawful s) }
    {
        let depth = Depth::try_from(bit_depth)?;
        let sampling = ChromaSampling::try_from(chroma_sampling)?;
        Ok(QuantizerParameters::of(
            log_base_q,
            log_target_q,
            depth,
            sampling,
            is_intra,
            log_isqrt_mean_scale,
        ))
    }
}
