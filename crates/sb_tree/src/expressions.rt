//! Expressions put together: each call makes one node of its parts (C99 6.5).
ghost use Rattle.std.specs.Prelude.{◌≡◌};
ghost use Rattle.sb_tree.specs.Trees as tree;
ghost use Rattle.sb_tree.specs.Plain.{plain_expr, plain_exprs, plain_type, expr_list};

use crate::operator::{BinaryOp, UnaryOp};
use crate::syntax::{Expr, TypeName};
use sb_base::{Name, Place};

impl Expr {
    /// A number or a character constant.
    #[tactic(auto, unfolding(crate::specs::Plain::plain_expr))]
    pub fn number(text: Name, value: u64, place: Place) -> Expr
        ensures { plain_expr result ≡ tree.Number text value place }
    {
        Expr::Number { text, value, place }
    }

    /// A string literal.
    #[tactic(auto, unfolding(crate::specs::Plain::plain_expr))]
    pub fn text(text: Name, place: Place) -> Expr
        ensures { plain_expr result ≡ tree.Text text place }
    {
        Expr::Text { text, place }
    }

    /// An identifier.
    #[tactic(auto, unfolding(crate::specs::Plain::plain_expr))]
    pub fn name(name: Name, place: Place) -> Expr
        ensures { plain_expr result ≡ tree.Identifier name place }
    {
        Expr::Name { name, place }
    }

    /// An operator before or behind one operand.
    #[tactic(auto, unfolding(crate::specs::Plain::plain_expr))]
    pub fn unary(op: UnaryOp, of: Box<Expr>, place: Place) -> Expr
        ensures { plain_expr result ≡ tree.Unary op (plain_expr of.value) place }
    {
        Expr::Unary { op, of, place }
    }

    /// An operator between two operands.
    #[tactic(auto, unfolding(crate::specs::Plain::plain_expr))]
    pub fn binary(op: BinaryOp, left: Box<Expr>, right: Box<Expr>, place: Place) -> Expr
        ensures { plain_expr result
            ≡ tree.Binary op (plain_expr left.value) (plain_expr right.value) place }
    {
        Expr::Binary {
            op,
            left,
            right,
            place,
        }
    }

    /// `=`, or an operator and `=`.
    #[tactic(auto, unfolding(crate::specs::Plain::plain_expr))]
    pub fn assign(op: Option<BinaryOp>, to: Box<Expr>, value: Box<Expr>, place: Place) -> Expr
        ensures { plain_expr result ≡ tree.Assign op (plain_expr to.value) (plain_expr value.value)
            place }
    {
        Expr::Assign {
            op,
            to,
            value,
            place,
        }
    }

    /// `test ? yes : no`.
    #[tactic(auto, unfolding(crate::specs::Plain::plain_expr))]
    pub fn cond(test: Box<Expr>, yes: Box<Expr>, no: Box<Expr>, place: Place) -> Expr
        ensures { plain_expr result ≡ tree.Cond (plain_expr test.value) (plain_expr yes.value)
            (plain_expr no.value) place }
    {
        Expr::Cond {
            test,
            yes,
            no,
            place,
        }
    }

    /// A call.
    #[tactic(auto, unfolding(crate::specs::Plain::plain_expr))]
    pub fn call(callee: Box<Expr>, args: Vec<Expr>, place: Place) -> Expr
        ensures { plain_expr result
            ≡ tree.Call (plain_expr callee.value) (expr_list (plain_exprs args.items)) place }
    {
        Expr::Call {
            callee,
            args,
            place,
        }
    }

    /// `base[at]`.
    #[tactic(auto, unfolding(crate::specs::Plain::plain_expr))]
    pub fn index(base: Box<Expr>, at: Box<Expr>, place: Place) -> Expr
        ensures { plain_expr result ≡ tree.Index (plain_expr base.value) (plain_expr at.value)
            place }
    {
        Expr::Index { base, at, place }
    }

    /// A member, by `->` if `arrow`, else by `.`.
    #[tactic(auto, unfolding(crate::specs::Plain::plain_expr))]
    pub fn member(of: Box<Expr>, arrow: bool, name: Name, name_place: Place, place: Place) -> Expr
        ensures { plain_expr result ≡ tree.Member (plain_expr of.value) arrow name name_place
            place }
    {
        Expr::Member {
            of,
            arrow,
            name,
            name_place,
            place,
        }
    }

    /// `(to) of`.
    #[tactic(auto, unfolding(crate::specs::Plain::plain_expr, crate::specs::Plain::plain_type))]
    pub fn cast(to: Box<TypeName>, of: Box<Expr>, place: Place) -> Expr
        ensures { plain_expr result ≡ tree.Cast (plain_type to.value) (plain_expr of.value) place }
    {
        Expr::Cast { to, of, place }
    }

    /// `sizeof (named)`.
    #[tactic(auto, unfolding(crate::specs::Plain::plain_expr, crate::specs::Plain::plain_type))]
    pub fn size_of_type(named: Box<TypeName>, place: Place) -> Expr
        ensures { plain_expr result ≡ tree.SizeOfType (plain_type named.value) place }
    {
        Expr::SizeOfType { named, place }
    }

    /// `sizeof of`.
    #[tactic(auto, unfolding(crate::specs::Plain::plain_expr))]
    pub fn size_of_expr(of: Box<Expr>, place: Place) -> Expr
        ensures { plain_expr result ≡ tree.SizeOfExpr (plain_expr of.value) place }
    {
        Expr::SizeOfExpr { of, place }
    }

    /// An expression in parentheses.
    #[tactic(auto, unfolding(crate::specs::Plain::plain_expr))]
    pub fn paren(of: Box<Expr>, place: Place) -> Expr
        ensures { plain_expr result ≡ tree.Paren (plain_expr of.value) place }
    {
        Expr::Paren { of, place }
    }
}
