/// A symbol: the number of an integer that the checker does not know.
#[derive(Clone, Copy, PartialEq, Eq, PartialOrd, Ord)]
pub struct Sym(pub u64);
