//! What a token is to the grammar: a keyword, a punctuator, an identifier, a constant or a string literal (C99 6.4).
ghost use Rattle.std.specs.Prelude.{◌≡◌};
ghost use Rattle.sb_sign.specs.Signs as spec;

use sb_base::{Name, Names, PpKind, Token};

/// A keyword (6.4.1).
#[derive(Clone, Copy)]
pub enum Keyword {
    Auto,
    Break,
    Case,
    Char,
    Const,
    Continue,
    Default,
    Do,
    Double,
    Else,
    Enum,
    Extern,
    Float,
    For,
    Goto,
    If,
    Inline,
    Int,
    Long,
    Register,
    Restrict,
    Return,
    Short,
    Signed,
    SizeOf,
    Static,
    Struct,
    Switch,
    Typedef,
    Union,
    Unsigned,
    Void,
    Volatile,
    While,
    Bool,
    Complex,
    Imaginary,
}

/// A punctuator (6.4.6). A digraph is the bracket or brace that it stands for.
#[derive(Clone, Copy)]
pub enum Mark {
    OpenBracket,
    CloseBracket,
    OpenParenthesis,
    CloseParenthesis,
    OpenBrace,
    CloseBrace,
    Dot,
    Arrow,
    Increment,
    Decrement,
    Ampersand,
    Star,
    Plus,
    Minus,
    Tilde,
    Exclamation,
    Slash,
    Percent,
    ShiftLeft,
    ShiftRight,
    Less,
    Greater,
    AtMost,
    AtLeast,
    Equal,
    NotEqual,
    Caret,
    Bar,
    And,
    Or,
    Question,
    Colon,
    Semicolon,
    Ellipsis,
    Assign,
    StarAssign,
    SlashAssign,
    PercentAssign,
    PlusAssign,
    MinusAssign,
    ShiftLeftAssign,
    ShiftRightAssign,
    AmpersandAssign,
    CaretAssign,
    BarAssign,
    Comma,
}

/// The text that has this number; nothing where the table lacks it.
fn text_at<'a>(names: &'a Names, number: u32) -> &'a [u8]
    ensures { result.now ≡ spec.text_at names.now.texts number }
{
    match names.text(Name(number)) {
        Some(text) => text,
        None => b"".as_slice(),
    }
}

/// How a token is spelled; nothing where the table lacks its number.
fn spelling_of<'a>(names: &'a Names, token: &Token) -> &'a [u8]
    ensures { result.now ≡ spec.spelling_of names.now.texts token.now }
{
    text_at(names, token.text.0)
}

/// Keywords of up to four letters.
fn short_keyword(text: &[u8]) -> Option<Keyword>
    ensures { result ≡ spec.short_keyword text.now }
{
    if text == b"auto".as_slice() {
        Some(Keyword::Auto)
    } else if text == b"case".as_slice() {
        Some(Keyword::Case)
    } else if text == b"char".as_slice() {
        Some(Keyword::Char)
    } else if text == b"do".as_slice() {
        Some(Keyword::Do)
    } else if text == b"else".as_slice() {
        Some(Keyword::Else)
    } else if text == b"enum".as_slice() {
        Some(Keyword::Enum)
    } else if text == b"for".as_slice() {
        Some(Keyword::For)
    } else if text == b"goto".as_slice() {
        Some(Keyword::Goto)
    } else if text == b"if".as_slice() {
        Some(Keyword::If)
    } else if text == b"int".as_slice() {
        Some(Keyword::Int)
    } else if text == b"long".as_slice() {
        Some(Keyword::Long)
    } else if text == b"void".as_slice() {
        Some(Keyword::Void)
    } else {
        None
    }
}

/// Keywords of five letters.
fn keyword_of_five(text: &[u8]) -> Option<Keyword>
    ensures { result ≡ spec.keyword_of_five text.now }
{
    if text == b"break".as_slice() {
        Some(Keyword::Break)
    } else if text == b"const".as_slice() {
        Some(Keyword::Const)
    } else if text == b"float".as_slice() {
        Some(Keyword::Float)
    } else if text == b"short".as_slice() {
        Some(Keyword::Short)
    } else if text == b"union".as_slice() {
        Some(Keyword::Union)
    } else if text == b"while".as_slice() {
        Some(Keyword::While)
    } else if text == b"_Bool".as_slice() {
        Some(Keyword::Bool)
    } else {
        None
    }
}

/// Keywords of six letters.
fn keyword_of_six(text: &[u8]) -> Option<Keyword>
    ensures { result ≡ spec.keyword_of_six text.now }
{
    if text == b"double".as_slice() {
        Some(Keyword::Double)
    } else if text == b"extern".as_slice() {
        Some(Keyword::Extern)
    } else if text == b"inline".as_slice() {
        Some(Keyword::Inline)
    } else if text == b"return".as_slice() {
        Some(Keyword::Return)
    } else if text == b"signed".as_slice() {
        Some(Keyword::Signed)
    } else if text == b"sizeof".as_slice() {
        Some(Keyword::SizeOf)
    } else if text == b"static".as_slice() {
        Some(Keyword::Static)
    } else if text == b"struct".as_slice() {
        Some(Keyword::Struct)
    } else if text == b"switch".as_slice() {
        Some(Keyword::Switch)
    } else {
        None
    }
}

/// Longer keywords.
fn long_keyword(text: &[u8]) -> Option<Keyword>
    ensures { result ≡ spec.long_keyword text.now }
{
    if text == b"continue".as_slice() {
        Some(Keyword::Continue)
    } else if text == b"default".as_slice() {
        Some(Keyword::Default)
    } else if text == b"register".as_slice() {
        Some(Keyword::Register)
    } else if text == b"restrict".as_slice() {
        Some(Keyword::Restrict)
    } else if text == b"typedef".as_slice() {
        Some(Keyword::Typedef)
    } else if text == b"unsigned".as_slice() {
        Some(Keyword::Unsigned)
    } else if text == b"volatile".as_slice() {
        Some(Keyword::Volatile)
    } else if text == b"_Complex".as_slice() {
        Some(Keyword::Complex)
    } else if text == b"_Imaginary".as_slice() {
        Some(Keyword::Imaginary)
    } else {
        None
    }
}

/// The keyword that is spelled so (6.4.1).
fn keyword_in(text: &[u8]) -> Option<Keyword>
    ensures { result ≡ spec.keyword_in text.now }
{
    short_keyword(text)
        .or_else(|| keyword_of_five(text))
        .or_else(|| keyword_of_six(text))
        .or_else(|| long_keyword(text))
}

/// Marks of one byte that no operator has alone.
fn separator(text: &[u8]) -> Option<Mark>
    ensures { result ≡ spec.separator text.now }
{
    match text {
        b"[" => Some(Mark::OpenBracket),
        b"]" => Some(Mark::CloseBracket),
        b"(" => Some(Mark::OpenParenthesis),
        b")" => Some(Mark::CloseParenthesis),
        b"{" => Some(Mark::OpenBrace),
        b"}" => Some(Mark::CloseBrace),
        b"." => Some(Mark::Dot),
        b"?" => Some(Mark::Question),
        b":" => Some(Mark::Colon),
        b";" => Some(Mark::Semicolon),
        b"=" => Some(Mark::Assign),
        b"," => Some(Mark::Comma),
        _ => None,
    }
}

/// Operators of one byte.
fn operator_sign(text: &[u8]) -> Option<Mark>
    ensures { result ≡ spec.operator_sign text.now }
{
    match text {
        b"&" => Some(Mark::Ampersand),
        b"*" => Some(Mark::Star),
        b"+" => Some(Mark::Plus),
        b"-" => Some(Mark::Minus),
        b"~" => Some(Mark::Tilde),
        b"!" => Some(Mark::Exclamation),
        b"/" => Some(Mark::Slash),
        b"%" => Some(Mark::Percent),
        b"<" => Some(Mark::Less),
        b">" => Some(Mark::Greater),
        b"^" => Some(Mark::Caret),
        b"|" => Some(Mark::Bar),
        _ => None,
    }
}

/// Marks of two bytes that end in `=`.
fn assignment_sign(text: &[u8]) -> Option<Mark>
    ensures { result ≡ spec.assignment_sign text.now }
{
    match text {
        b"<=" => Some(Mark::AtMost),
        b">=" => Some(Mark::AtLeast),
        b"==" => Some(Mark::Equal),
        b"!=" => Some(Mark::NotEqual),
        b"*=" => Some(Mark::StarAssign),
        b"/=" => Some(Mark::SlashAssign),
        b"%=" => Some(Mark::PercentAssign),
        b"+=" => Some(Mark::PlusAssign),
        b"-=" => Some(Mark::MinusAssign),
        b"&=" => Some(Mark::AmpersandAssign),
        b"^=" => Some(Mark::CaretAssign),
        b"|=" => Some(Mark::BarAssign),
        _ => None,
    }
}

/// Other marks of two bytes; a digraph is the bracket or brace that it stands for (6.4.6 paragraph 3).
fn pair(text: &[u8]) -> Option<Mark>
    ensures { result ≡ spec.pair text.now }
{
    match text {
        b"->" => Some(Mark::Arrow),
        b"++" => Some(Mark::Increment),
        b"--" => Some(Mark::Decrement),
        b"<<" => Some(Mark::ShiftLeft),
        b">>" => Some(Mark::ShiftRight),
        b"&&" => Some(Mark::And),
        b"||" => Some(Mark::Or),
        b"<:" => Some(Mark::OpenBracket),
        b":>" => Some(Mark::CloseBracket),
        b"<%" => Some(Mark::OpenBrace),
        b"%>" => Some(Mark::CloseBrace),
        _ => None,
    }
}

/// Marks of three bytes.
fn triple(text: &[u8]) -> Option<Mark>
    ensures { result ≡ spec.triple text.now }
{
    if text == b"...".as_slice() {
        Some(Mark::Ellipsis)
    } else if text == b"<<=".as_slice() {
        Some(Mark::ShiftLeftAssign)
    } else if text == b">>=".as_slice() {
        Some(Mark::ShiftRightAssign)
    } else {
        None
    }
}

/// The punctuator that is spelled so (6.4.6).
fn mark_in(text: &[u8]) -> Option<Mark>
    ensures { result ≡ spec.mark_in text.now }
{
    separator(text)
        .or_else(|| operator_sign(text))
        .or_else(|| assignment_sign(text))
        .or_else(|| pair(text))
        .or_else(|| triple(text))
}

/// The keyword that a token is.
pub fn keyword_of(names: &Names, token: &Token) -> Option<Keyword>
    ensures { result ≡ spec.keyword_of names.now.texts token.now }
{
    match token.kind {
        PpKind::Word => keyword_in(spelling_of(names, token)),
        _ => None,
    }
}

/// The punctuator that a token is.
pub fn mark_of(names: &Names, token: &Token) -> Option<Mark>
    ensures { result ≡ spec.mark_of names.now.texts token.now }
{
    match token.kind {
        PpKind::Punct => mark_in(spelling_of(names, token)),
        _ => None,
    }
}

/// The identifier that a token is: a word that is no keyword (6.4.2.1).
pub fn name_of(names: &Names, token: &Token) -> Option<Name>
    ensures { result ≡ spec.name_of names.now.texts token.now }
{
    match (token.kind, keyword_of(names, token)) {
        (PpKind::Word, None) => Some(token.text),
        _ => None,
    }
}

/// Its place in the list of the punctuators.
fn number_of_mark(mark: Mark) -> u8
    ensures { result ≡ spec.number_of_mark mark }
{
    mark as u8
}

/// Its place in the list of the keywords.
fn number_of_keyword(keyword: Keyword) -> u8
    ensures { result ≡ spec.number_of_keyword keyword }
{
    keyword as u8
}

/// Whether a token is this punctuator.
pub fn is_mark(names: &Names, mark: Mark, token: &Token) -> bool
    ensures { result ≡ spec.is_mark names.now.texts mark token.now }
{
    match mark_of(names, token) {
        Some(found) => number_of_mark(mark) == number_of_mark(found),
        None => false,
    }
}

/// Whether a token is this keyword.
pub fn is_keyword(names: &Names, keyword: Keyword, token: &Token) -> bool
    ensures { result ≡ spec.is_keyword names.now.texts keyword token.now }
{
    match keyword_of(names, token) {
        Some(found) => number_of_keyword(keyword) == number_of_keyword(found),
        None => false,
    }
}

/// Whether a token is a constant: a number or a character (6.4.4).
pub fn is_number(token: &Token) -> bool
    ensures { result ≡ spec.is_number token.now }
{
    matches!(token.kind, PpKind::Number | PpKind::Char)
}

/// Whether a token is a string literal (6.4.5).
pub fn is_text(token: &Token) -> bool
    ensures { result ≡ spec.is_text token.now }
{
    matches!(token.kind, PpKind::Text)
}
