// The two kinds of coefficient.

// The DC coefficient of a block, or one of its AC coefficients: each kind has quantizer tables of its own.
#[derive(Clone, Copy, PartialEq, Eq, Debug)]
pub enum Coefficient {
    Dc,
    Ac,
}
