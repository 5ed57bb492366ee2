// The entries of the six tables, and the index of a table that stands for a quantizer.
ghost use Rattle.std.specs.Prelude.{◌≡◌, ℕ, ◌-◌, ◌<◌, ◌≤◌, slice_index};
ghost use Rattle.tables.specs.Choice.{Table, Chosen, index};
ghost use Rattle.tables.specs.Depths.{table};

use crate::coefficient::Coefficient;
use crate::depth::Depth;
use crate::tables::{AC_8, AC_10, AC_12, DC_8, DC_10, DC_12};

impl Depth {
    // The table of a coefficient at this depth.
    fn table(self, coefficient: Coefficient) -> &'static [u16; 256]
        ensures value { result.now ≡ table coefficient self }
        ensures rule { Table result.now }
    {
        match (coefficient, self) {
            (Coefficient::Dc, Depth::Eight) => &DC_8,
            (Coefficient::Dc, Depth::Ten) => &DC_10,
            (Coefficient::Dc, Depth::Twelve) => &DC_12,
            (Coefficient::Ac, Depth::Eight) => &AC_8,
            (Coefficient::Ac, Depth::Ten) => &AC_10,
            (Coefficient::Ac, Depth::Twelve) => &AC_12,
        }
    }

    // The entry of an index in the table of a coefficient.
    pub fn q(self, coefficient: Coefficient, qindex: u8) -> u16
        ensures { result ≡ slice_index (table coefficient self) qindex }
    {
        self.table(coefficient)[qindex as usize]
    }

    // The index of the table of a coefficient that stands for a quantizer.
    pub fn select_qi(self, coefficient: Coefficient, quantizer: i64) -> u8
        ensures value { result ≡ index (table coefficient self) quantizer }
        ensures chosen { Chosen (table coefficient self) quantizer result }
    {
        select_qi(quantizer, self.table(coefficient))
    }
}

// The first index whose entry is not below q, in a table that never falls.
fn lower_bound(table: &[u16; 256], q: u16) -> usize
    requires { Table table.now }
    ensures within { result ≤ 256 }
    ensures before { 0 < result → slice_index table.now (result - 1) < q }
    ensures after { result < 256 → q ≤ slice_index table.now result }
{
    table.partition_point(|&entry| entry < q)
}

// The index of a table that stands for a quantizer: 0 below the first entry, 255 from the last on, the first of
// equal entries, and of two neighbours the nearer by the logarithm.
fn select_qi(quantizer: i64, table: &[u16; 256]) -> u8
    requires { Table table.now }
    ensures value { result ≡ index table.now quantizer }
    ensures chosen { Chosen table.now quantizer result }
{
    if quantizer < table[0] as i64 {
        return 0;
    }
    if quantizer >= table[255] as i64 {
        return 255;
    }
    let q = quantizer as u16;
    let at = lower_bound(table, q);
    let t = table[at];
    if t == q {
        return at as u8;
    }
    let s = table[at - 1];
    if (q as u32) * (q as u32) < (s as u32) * (t as u32) {
        (at - 1) as u8
    } else {
        at as u8
    }
}
