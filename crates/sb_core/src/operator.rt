//! The operators of the core (C99 6.5).

/// `-` and `~` (6.5.3.3).
#[derive(Clone, Copy)]
pub enum SignOp {
    Minus,
    Invert,
}

/// An operator on two numbers that gives a number (6.5.5 to 6.5.7, 6.5.10 to 6.5.12).
#[derive(Clone, Copy)]
pub enum NumOp {
    Add,
    Sub,
    Mul,
    Div,
    Rem,
    Shl,
    Shr,
    And,
    Xor,
    Or,
}

/// A comparison (6.5.8, 6.5.9).
#[derive(Clone, Copy)]
pub enum CompareOp {
    Less,
    AtMost,
    Greater,
    AtLeast,
    Equal,
    NotEqual,
}

/// An operator before one operand in an argument of an annotation.
#[derive(Clone, Copy)]
pub enum SizeUnary {
    Plus,
    Minus,
    Invert,
    Not,
}

/// An operator between two operands in an argument of an annotation.
#[derive(Clone, Copy)]
pub enum SizeBinary {
    Num(NumOp),
    Compare(CompareOp),
    And,
    Or,
}
