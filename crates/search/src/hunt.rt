// The bisection for a base.
ghost use Rattle.std.specs.Prelude.{◌≡◌, ℕ, ◌+◌, ◌-◌, ◌^◌, ◌<◌, ◌≤◌, ℤ, pos, ◌+ℤ◌, ◌-ℤ◌, neg_ℤ, ◌≤ℤ◌, ◌<ℤ◌};
ghost use Rattle.search.specs.Predict.{forecast};
ghost use Rattle.search.specs.Hunt.{hunt, Hits, Hunts};

use crate::ends::Ends;
use crate::forecast::predict_base;
use crate::found::Found;
use crate::span::Span;
use model::BitModel;
use outlook::Counts;

// The last middle of a bisection from the ends for a base that predicts the total, and how many middles it compared, at
// most 60. That base predicts the total, or lies where the predictions cross it.
pub fn search<M: BitModel>(model: &M, counts: &Counts, total: i64, ends: Ends) -> Found
    ensures exact { result ≡ hunt (forecast M.meaning model.now counts.now.kinds) total 60 ends.bottom ends.top 0 }
    ensures few { result.tries ≤ 60 }
    ensures hits { Hits (forecast M.meaning model.now counts.now.kinds) total ends.bottom ends.top result.base }
{
    let mut span = Span::between(ends);
    // The loop counts no index: each turn halves the span.
    while span.lo < span.hi {
        let base = span.middle();
        let bits = predict_base(model, counts, base);
        if bits > total {
            span = span.up();
        } else if bits < total {
            span = span.down();
        } else {
            return Found {
                base,
                tries: span.tries + 1,
            };
        }
    }
    Found {
        base: span.middle(),
        tries: span.tries,
    }
}

// From any ends in order within 8 doublings of 0, for any predictions and any total: a search ends at the total or where
// the predictions cross it, after at most 60 tries.
pub fn hunts_stand() -> u8
    ensures { Hunts }
{
    0
}
