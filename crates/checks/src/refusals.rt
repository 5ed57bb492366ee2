// What the tests judge refusals by.
ghost use Rattle.std.specs.Prelude.{◌≡◌, true, pos};
ghost use Rattle.quantize.specs.Call.{number_of, quantizer_answer};

use quantize::QuantizerParameters;

// The number of the refusal of a whole quantizer, or 0: so that what is expected stands as the rules number it.
pub(crate) fn number(depth: u8, sampling: u8) -> u8
    ensures { result ≡ number_of (quantizer_answer (pos 0) (pos 0) depth sampling true (pos 0)) }
{
    match QuantizerParameters::new_from_log_q(0, 0, depth, sampling, true, 0) {
        Ok(_) => 0,
        Err(refusal) => refusal.number(),
    }
}
