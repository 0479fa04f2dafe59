//! Statements put together: each call makes one node of its parts (C99 6.8).
ghost use Rattle.std.specs.Prelude.{◌≡◌};
ghost use Rattle.std.specs.Option.{option_map};
ghost use Rattle.sb_tree.specs.Trees as tree;
ghost use Rattle.sb_tree.specs.Plain.{boxed, plain_expr, plain_stmt, plain_stmts, plain_decls, stmt_list, decl_list, optional_expr, optional_stmt};

use crate::syntax::{Decl, Expr, Stmt};
use sb_base::{Name, Place};

impl Stmt {
    /// Statements in braces.
    #[tactic(auto, unfolding(crate::specs::Plain::plain_stmt))]
    pub fn block(list: Vec<Stmt>, place: Place, end: Place) -> Stmt
        ensures { plain_stmt result ≡ tree.Block (stmt_list (plain_stmts list.items)) place end }
    {
        Stmt::Block { list, place, end }
    }

    /// An expression as a statement; without one, the empty statement.
    #[tactic(auto, unfolding(crate::specs::Plain::plain_stmt, crate::specs::Plain::plain_expr))]
    pub fn evaluate(value: Option<Expr>, place: Place) -> Stmt
        ensures { plain_stmt result ≡ tree.Evaluate (optional_expr (option_map plain_expr value))
            place }
    {
        Stmt::Expr { value, place }
    }

    /// Declarations.
    #[tactic(auto, unfolding(crate::specs::Plain::plain_stmt, crate::specs::Plain::plain_decl))]
    pub fn declare(list: Vec<Decl>, place: Place) -> Stmt
        ensures { plain_stmt result ≡ tree.Declare (decl_list (plain_decls list.items)) place }
    {
        Stmt::Decl { list, place }
    }

    /// `if`, with what follows `else` where there is one.
    #[tactic(auto)]
    pub fn if_else(test: Expr, yes: Box<Stmt>, no: Option<Box<Stmt>>, place: Place) -> Stmt
        ensures { plain_stmt result ≡ tree.If (plain_expr test) (plain_stmt yes.value)
            (optional_stmt (option_map plain_stmt (boxed no))) place }
    {
        Stmt::If {
            test,
            yes,
            no,
            place,
        }
    }

    /// `while`.
    #[tactic(auto, unfolding(crate::specs::Plain::plain_stmt, crate::specs::Plain::plain_expr))]
    pub fn while_loop(test: Expr, body: Box<Stmt>, place: Place) -> Stmt
        ensures { plain_stmt result ≡ tree.While (plain_expr test) (plain_stmt body.value) place }
    {
        Stmt::While { test, body, place }
    }

    /// `do`.
    #[tactic(auto, unfolding(crate::specs::Plain::plain_stmt, crate::specs::Plain::plain_expr))]
    pub fn do_loop(body: Box<Stmt>, test: Expr, place: Place) -> Stmt
        ensures { plain_stmt result ≡ tree.Do (plain_stmt body.value) (plain_expr test) place }
    {
        Stmt::Do { body, test, place }
    }

    /// `for`; what stands first in it may be a declaration.
    #[tactic(auto, unfolding(crate::specs::Plain::plain_stmt, crate::specs::Plain::plain_expr))]
    pub fn for_loop(
        first: Option<Box<Stmt>>,
        test: Option<Expr>,
        step: Option<Expr>,
        body: Box<Stmt>,
        place: Place,
    ) -> Stmt
        ensures { plain_stmt result ≡ tree.For (optional_stmt (option_map plain_stmt (boxed first)))
            (optional_expr (option_map plain_expr test))
            (optional_expr (option_map plain_expr step)) (plain_stmt body.value) place }
    {
        Stmt::For {
            first,
            test,
            step,
            body,
            place,
        }
    }

    /// `switch`.
    #[tactic(auto, unfolding(crate::specs::Plain::plain_stmt, crate::specs::Plain::plain_expr))]
    pub fn switch(on: Expr, body: Box<Stmt>, place: Place) -> Stmt
        ensures { plain_stmt result ≡ tree.Switch (plain_expr on) (plain_stmt body.value) place }
    {
        Stmt::Switch { on, body, place }
    }

    /// A statement behind `case`.
    #[tactic(auto, unfolding(crate::specs::Plain::plain_stmt, crate::specs::Plain::plain_expr))]
    pub fn case(value: Expr, body: Box<Stmt>, place: Place) -> Stmt
        ensures { plain_stmt result ≡ tree.Case (plain_expr value) (plain_stmt body.value) place }
    {
        Stmt::Case { value, body, place }
    }

    /// A statement behind `default`.
    #[tactic(auto, unfolding(crate::specs::Plain::plain_stmt))]
    pub fn default_case(body: Box<Stmt>, place: Place) -> Stmt
        ensures { plain_stmt result ≡ tree.Default (plain_stmt body.value) place }
    {
        Stmt::Default { body, place }
    }

    /// A statement behind a label.
    #[tactic(auto, unfolding(crate::specs::Plain::plain_stmt))]
    pub fn label(name: Name, body: Box<Stmt>, place: Place) -> Stmt
        ensures { plain_stmt result ≡ tree.Label name (plain_stmt body.value) place }
    {
        Stmt::Label { name, body, place }
    }

    /// `goto`.
    #[tactic(auto, unfolding(crate::specs::Plain::plain_stmt))]
    pub fn goto(name: Name, name_place: Place, place: Place) -> Stmt
        ensures { plain_stmt result ≡ tree.Goto name name_place place }
    {
        Stmt::Goto {
            name,
            name_place,
            place,
        }
    }

    /// `break`.
    #[tactic(auto, unfolding(crate::specs::Plain::plain_stmt))]
    pub fn break_at(place: Place) -> Stmt
        ensures { plain_stmt result ≡ tree.Break place }
    {
        Stmt::Break(place)
    }

    /// `continue`.
    #[tactic(auto, unfolding(crate::specs::Plain::plain_stmt))]
    pub fn continue_at(place: Place) -> Stmt
        ensures { plain_stmt result ≡ tree.Continue place }
    {
        Stmt::Continue(place)
    }

    /// `return`, with its value where there is one.
    #[tactic(auto, unfolding(crate::specs::Plain::plain_stmt, crate::specs::Plain::plain_expr))]
    pub fn return_value(value: Option<Expr>, place: Place) -> Stmt
        ensures { plain_stmt result ≡ tree.Return (optional_expr (option_map plain_expr value))
            place }
    {
        Stmt::Return { value, place }
    }
}
