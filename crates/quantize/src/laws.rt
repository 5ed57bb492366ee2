// Theorems about the quantizer: the contract of each function here is one, and its result says nothing more.
ghost use Rattle.quantize.specs.Figures.{Figures};
ghost use Rattle.quantize.specs.Indexes.{AllBrought};
ghost use Rattle.quantize.specs.Scale.{NothingRounded};

// Every index is brought within reach of the luma AC index, and moved no further than that takes.
pub fn reach_stands() -> u8
    ensures { AllBrought }
{
    0
}

// Every scale is exact.
pub fn scales_stand() -> u8
    ensures { NothingRounded }
{
    0
}

// The worked figures of this layer.
pub fn figures_stand() -> u8
    ensures { Figures }
{
    0
}
