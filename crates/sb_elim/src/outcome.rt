/// What a step of the elimination comes to: there is more to do, or an answer is found.
#[derive(Clone, Copy, PartialEq, Eq)]
pub enum Outcome {
    Going,
    Proved,
    TooManyRows,
    TooManyDigits,
}
