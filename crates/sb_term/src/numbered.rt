use crate::term::Term;

/// The term of a row with the number by which steps name that row.
#[derive(Drop)]
pub struct Numbered {
    pub number: u64,
    pub term: Term,
}
