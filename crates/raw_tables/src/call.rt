// The calls of the tables with raw numbers, each of which refuses a bad depth. A depth is a number here, since these
// calls are for callers that have not asked yet; `tables::Depth` is for those that have.
ghost use Rattle.std.specs.Prelude.{◌≡◌};
ghost use Rattle.tables.specs.Choice.{Chosen};
ghost use Rattle.tables.specs.Depths.{table};
ghost use Rattle.raw_tables.specs.Calls.{answer, select_answer, AtDepth};

use crate::refusal::Refusal;
use tables::{Coefficient, Depth};

// The entry of an index in the table of a coefficient at a depth. Refused: 4 where the depth is not 8, 10 or 12.
pub fn q(coefficient: Coefficient, qindex: u8, bit_depth: u8) -> Result<u16, Refusal>
    ensures { result ≡ answer coefficient qindex bit_depth }
{
    let depth = Depth::try_from(bit_depth)?;
    Ok(depth.q(coefficient, qindex))
}

// The index that stands for a quantizer in the table of a coefficient at a depth. Refused: 4 where the depth is
// not 8, 10 or 12.
pub fn select_qi(coefficient: Coefficient, quantizer: i64, bit_depth: u8) -> Result<u8, Refusal>
    ensures value { result ≡ select_answer coefficient quantizer bit_depth }
    ensures chosen { AtDepth bit_depth result (λ d. Chosen (table coefficient d) quantizer) }
{
    let depth = Depth::try_from(bit_depth)?;
    Ok(depth.select_qi(coefficient, quantizer))
}
