//! The words that stand for operators, storage and base types.

use sb_tree::{BinaryOp, Storage, UnaryOp};

pub(crate) fn unary_word(op: UnaryOp) -> &'static str {
    match op {
        UnaryOp::Plus => "+",
        UnaryOp::Minus => "-",
        UnaryOp::Invert => "~",
        UnaryOp::Not => "!",
        UnaryOp::Deref => "*",
        UnaryOp::Address => "&",
        UnaryOp::PreInc => "++",
        UnaryOp::PreDec => "--",
        UnaryOp::PostInc => "post++",
        UnaryOp::PostDec => "post--",
    }
}

pub(crate) fn binary_word(op: BinaryOp) -> &'static str {
    match op {
        BinaryOp::Mul => "*",
        BinaryOp::Div => "/",
        BinaryOp::Rem => "%",
        BinaryOp::Add => "+",
        BinaryOp::Sub => "-",
        BinaryOp::Shl => "<<",
        BinaryOp::Shr => ">>",
        BinaryOp::Less => "<",
        BinaryOp::AtMost => "<=",
        BinaryOp::Greater => ">",
        BinaryOp::AtLeast => ">=",
        BinaryOp::Equal => "==",
        BinaryOp::NotEqual => "!=",
        BinaryOp::BitAnd => "&",
        BinaryOp::BitXor => "^",
        BinaryOp::BitOr => "|",
        BinaryOp::And => "&&",
        BinaryOp::Or => "||",
        BinaryOp::Comma => ",",
    }
}

/// The word of an assignment (C99 6.5.16); `?` where C has none with this operator.
pub(crate) fn assignment_word(op: Option<BinaryOp>) -> &'static str {
    match op {
        None => "=",
        Some(BinaryOp::Mul) => "*=",
        Some(BinaryOp::Div) => "/=",
        Some(BinaryOp::Rem) => "%=",
        Some(BinaryOp::Add) => "+=",
        Some(BinaryOp::Sub) => "-=",
        Some(BinaryOp::Shl) => "<<=",
        Some(BinaryOp::Shr) => ">>=",
        Some(BinaryOp::BitAnd) => "&=",
        Some(BinaryOp::BitXor) => "^=",
        Some(BinaryOp::BitOr) => "|=",
        Some(_) => "?",
    }
}

/// The word of a declaration's storage; nothing where it says none.
pub(crate) fn storage_word(storage: Storage) -> &'static str {
    match storage {
        Storage::Plain => "",
        Storage::Typedef => "typedef",
        Storage::Static => "static",
        Storage::Extern => "extern",
    }
}

/// The base type that has this number; `?` where none has it.
pub(crate) fn base_word(code: u8) -> &'static str {
    match code {
        0 => "void",
        1 => "_Bool",
        2 => "char",
        3 => "schar",
        4 => "uchar",
        5 => "short",
        6 => "ushort",
        7 => "int",
        8 => "uint",
        9 => "long",
        10 => "ulong",
        11 => "llong",
        12 => "ullong",
        _ => "?",
    }
}
