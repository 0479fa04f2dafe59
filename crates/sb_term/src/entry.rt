/// A symbol of a term with its coefficient, which is not zero.
#[derive(Clone, Copy, Default, PartialEq, Eq)]
pub struct Entry {
    pub symbol: u64,
    pub coefficient: i128,
}
