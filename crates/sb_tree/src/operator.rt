//! The operators of expressions (C99 6.5).

/// An operator before or behind one operand (6.5.2.4, 6.5.3).
#[derive(Clone, Copy)]
pub enum UnaryOp {
    Plus,
    Minus,
    Invert,
    Not,
    Deref,
    Address,
    PreInc,
    PreDec,
    PostInc,
    PostDec,
}

/// An operator between two operands that groups to the left (6.5.5 to 6.5.14, 6.5.17).
#[derive(Clone, Copy)]
pub enum BinaryOp {
    Mul,
    Div,
    Rem,
    Add,
    Sub,
    Shl,
    Shr,
    Less,
    AtMost,
    Greater,
    AtLeast,
    Equal,
    NotEqual,
    BitAnd,
    BitXor,
    BitOr,
    And,
    Or,
    Comma,
}
