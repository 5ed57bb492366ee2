// What a base predicts: the bits of all frames ahead.
ghost use Rattle.std.specs.Prelude.{◌≡◌, ℕ, ℤ, pos, slice_index};
ghost use Rattle.flat.specs.Flat.{code_of};
ghost use Rattle.search.specs.Predict.{with_share, forecast};

use calls::SEF_BITS;
use flat::Subtype;
use model::BitModel;
use outlook::Counts;

// The subtypes of coded frames.
const SUBTYPES: [Subtype; 4] = [Subtype::I, Subtype::P, Subtype::B0, Subtype::B1];

// How many frames of a subtype are ahead.
fn frames_of(counts: &Counts, subtype: Subtype) -> u32
    ensures { result ≡ slice_index counts.now.kinds (code_of subtype) }
{
    counts.kinds[u8::from(subtype) as usize]
}

// The sum with the bits of one subtype's frames. Where there are none, the model is not asked.
fn add_share<M: BitModel>(model: &M, sum: i64, subtype: Subtype, frames: u32, base: i64) -> i64
    ensures { result ≡ with_share M.meaning model.now subtype frames base sum }
{
    if frames == 0 {
        return sum;
    }
    let bits = model.predict(u8::from(subtype), subtype.log_q(base));
    sum.saturating_add((frames as i64).saturating_mul(bits))
}

// The bits that a base predicts, by the counts of the frames ahead.
pub fn predict_base<M: BitModel>(model: &M, counts: &Counts, base: i64) -> i64
    ensures { result ≡ forecast M.meaning model.now counts.now.kinds base }
{
    let coded = SUBTYPES.iter().fold(
        0,
        |sum, subtype| add_share(model, sum, *subtype, frames_of(counts, *subtype), base),
    );
    coded.saturating_add((counts.kinds[4] as i64).saturating_mul(SEF_BITS as i64))
}
