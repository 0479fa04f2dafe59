//! Statements of the core (C99 6.8): effects stand in order, and a body is a list of sections between labels.

use crate::expression::CoreExpr;
use crate::types::TypeId;
use sb_base::Place;

/// A value that an initialiser puts at an offset (6.7.8).
#[derive(Drop)]
pub struct Entry {
    pub offset: u64,
    pub kind: TypeId,
    pub value: CoreExpr,
}

/// A statement.
#[derive(Drop)]
#[cycle(statements)]
pub enum CoreStmt {
    /// A plain local takes a value.
    Set {
        local: u32,
        value: CoreExpr,
    },
    /// A value is written at a pointer; `pad` bytes behind it are padding that may change with it (6.2.6.1).
    Store {
        at: CoreExpr,
        value: CoreExpr,
        kind: TypeId,
        size: u64,
        pad: u64,
        place: Place,
    },
    /// A struct is assigned (6.5.16.1).
    Copy {
        to: CoreExpr,
        from: CoreExpr,
        size: u64,
        to_place: Place,
        from_place: Place,
    },
    /// A local gets these values, and bytes without one are zero (6.7.8).
    Init {
        local: u32,
        values: Vec<Entry>,
    },
    /// A call with the place of each argument; `into` takes the result (6.5.2.2).
    Call {
        function: u32,
        args: Vec<CoreExpr>,
        places: Vec<Place>,
        into: Option<u32>,
        place: Place,
    },
    If {
        test: CoreExpr,
        yes: Box<CoreStmt>,
        no: Box<CoreStmt>,
    },
    /// `before` stands before each evaluation of the test, and `after` is the step of a `for` (6.8.5).
    Loop {
        body_first: bool,
        before: Vec<CoreStmt>,
        test: CoreExpr,
        body: Box<CoreStmt>,
        after: Vec<CoreStmt>,
    },
    /// Values with their labels; None is `default` (6.8.4.2).
    Switch {
        on: CoreExpr,
        cases: Vec<(Option<i128>, u32)>,
        body: Box<CoreStmt>,
    },
    Break,
    Continue,
    Goto(u32),
    Return {
        value: Option<CoreExpr>,
        place: Place,
    },
    Block {
        locals: Vec<u32>,
        sections: Vec<Section>,
    },
    /// The end of a statement or a declaration of the text, with its temporaries.
    End(Vec<u32>),
}

/// The statements behind a label, up to the next.
#[derive(Drop)]
#[cycle(statements)]
pub struct Section {
    pub label: Option<u32>,
    pub list: Vec<CoreStmt>,
}
