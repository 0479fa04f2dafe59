//! Expressions, type names, statements and declarations (C99 6.5 to 6.9).

use crate::operator::{BinaryOp, UnaryOp};
use sb_base::{Name, Place};

/// An expression (6.5). A character constant is a `Number`.
#[derive(Drop)]
#[cycle(syntax)]
pub enum Expr {
    Number {
        text: Name,
        value: u64,
        place: Place,
    },
    Text {
        text: Name,
        place: Place,
    },
    Name {
        name: Name,
        place: Place,
    },
    Unary {
        op: UnaryOp,
        of: Box<Expr>,
        place: Place,
    },
    Binary {
        op: BinaryOp,
        left: Box<Expr>,
        right: Box<Expr>,
        place: Place,
    },
    Assign {
        op: Option<BinaryOp>,
        to: Box<Expr>,
        value: Box<Expr>,
        place: Place,
    },
    Cond {
        test: Box<Expr>,
        yes: Box<Expr>,
        no: Box<Expr>,
        place: Place,
    },
    Call {
        callee: Box<Expr>,
        args: Vec<Expr>,
        place: Place,
    },
    Index {
        base: Box<Expr>,
        at: Box<Expr>,
        place: Place,
    },
    Member {
        of: Box<Expr>,
        arrow: bool,
        name: Name,
        name_place: Place,
        place: Place,
    },
    Cast {
        to: Box<TypeName>,
        of: Box<Expr>,
        place: Place,
    },
    SizeOfType {
        named: Box<TypeName>,
        place: Place,
    },
    SizeOfExpr {
        of: Box<Expr>,
        place: Place,
    },
    Paren {
        of: Box<Expr>,
        place: Place,
    },
}

/// A type as it is written (6.7.2, 6.7.5, 6.7.6).
#[derive(Drop)]
#[cycle(syntax)]
pub enum TypeName {
    Base {
        code: u8,
        place: Place,
    },
    Const(Box<TypeName>),
    Pointer(Box<TypeName>, Place),
    Array {
        of: Box<TypeName>,
        length: Option<Box<Expr>>,
        place: Place,
    },
    Function {
        result: Box<TypeName>,
        params: Vec<Decl>,
        place: Place,
    },
    Struct {
        tag: Option<Name>,
        members: Option<Vec<Decl>>,
        place: Place,
    },
    Enum {
        tag: Option<Name>,
        items: Option<Vec<Item>>,
        place: Place,
    },
    Named(Name, Place),
    Same(Place),
    Paren(Box<TypeName>, Place),
}

/// A constant of an enumeration (6.7.2.2).
#[derive(Drop)]
#[cycle(syntax)]
pub struct Item {
    pub name: Name,
    pub value: Option<Expr>,
    pub place: Place,
}

/// An annotation.
#[derive(Drop)]
#[cycle(syntax)]
pub struct Note {
    pub name: Name,
    pub args: Vec<Arg>,
    pub place: Place,
}

#[derive(Drop)]
#[cycle(syntax)]
pub enum Arg {
    Expr(Expr),
    Note(Box<Note>),
}

/// How a declaration is stored (6.7.1).
#[derive(Clone, Copy)]
pub enum Storage {
    Plain,
    Typedef,
    Static,
    Extern,
}

/// An initialiser (6.7.8).
#[derive(Drop)]
#[cycle(syntax)]
pub enum Init {
    One(Expr),
    List(Vec<Init>, Place),
}

/// A declarator with its type (6.7), a parameter, a member, or a function with its body (6.9.1).
#[derive(Drop)]
#[cycle(syntax)]
pub struct Decl {
    pub notes: Vec<Note>,
    pub storage: Storage,
    pub type_name: TypeName,
    pub name: Option<Name>,
    pub place: Place,
    pub init: Option<Init>,
    pub body: Option<Stmt>,
}

/// A statement (6.8).
#[derive(Drop)]
#[cycle(syntax)]
pub enum Stmt {
    Block {
        list: Vec<Stmt>,
        place: Place,
        end: Place,
    },
    Expr {
        value: Option<Expr>,
        place: Place,
    },
    Decl {
        list: Vec<Decl>,
        place: Place,
    },
    If {
        test: Expr,
        yes: Box<Stmt>,
        no: Option<Box<Stmt>>,
        place: Place,
    },
    While {
        test: Expr,
        body: Box<Stmt>,
        place: Place,
    },
    Do {
        body: Box<Stmt>,
        test: Expr,
        place: Place,
    },
    For {
        first: Option<Box<Stmt>>,
        test: Option<Expr>,
        step: Option<Expr>,
        body: Box<Stmt>,
        place: Place,
    },
    Switch {
        on: Expr,
        body: Box<Stmt>,
        place: Place,
    },
    Case {
        value: Expr,
        body: Box<Stmt>,
        place: Place,
    },
    Default {
        body: Box<Stmt>,
        place: Place,
    },
    Label {
        name: Name,
        body: Box<Stmt>,
        place: Place,
    },
    Goto {
        name: Name,
        name_place: Place,
        place: Place,
    },
    Break(Place),
    Continue(Place),
    Return {
        value: Option<Expr>,
        place: Place,
    },
}
