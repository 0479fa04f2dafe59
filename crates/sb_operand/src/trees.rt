//! Nodes of parts that already are on the heap, each put there too.
ghost use Rattle.std.specs.Prelude.{◌≡◌, IfOk};
ghost use Rattle.sb_tree.specs.Plain.{plain_expr, plain_exprs, plain_type, expr_list};
ghost use Rattle.sb_tree.specs.Trees as tree;

use sb_base::{Name, Place};
use sb_tree::{BinaryOp, Expr, TypeName, UnaryOp};
use std::alloc::{AllocError, Global};

/// An expression in parentheses.
pub fn paren(alloc: Global, of: Box<Expr>, place: Place) -> Result<Box<Expr>, AllocError>
    ensures { IfOk result (λ e. plain_expr e.value ≡ tree.Paren (plain_expr of.value) place) }
{
    Ok(Box::new(alloc, Expr::paren(of, place))?)
}

pub fn index(
    alloc: Global,
    base: Box<Expr>,
    at: Box<Expr>,
    place: Place,
) -> Result<Box<Expr>, AllocError>
    ensures { IfOk result
        (λ e. plain_expr e.value ≡ tree.Index (plain_expr base.value) (plain_expr at.value) place) }
{
    Ok(Box::new(alloc, Expr::index(base, at, place))?)
}

pub fn call(
    alloc: Global,
    callee: Box<Expr>,
    args: Vec<Expr>,
    place: Place,
) -> Result<Box<Expr>, AllocError>
    ensures { IfOk result
        (λ e. plain_expr e.value
        ≡ tree.Call (plain_expr callee.value) (expr_list (plain_exprs args.items)) place) }
{
    Ok(Box::new(alloc, Expr::call(callee, args, place))?)
}

/// A member, by `->` if `arrow`, else by `.`.
pub fn member(
    alloc: Global,
    of: Box<Expr>,
    arrow: bool,
    name: (Name, Place),
    place: Place,
) -> Result<Box<Expr>, AllocError>
    ensures { IfOk result
        (λ e. plain_expr e.value ≡ tree.Member (plain_expr of.value) arrow name.0 name.1 place) }
{
    let node = Expr::member(of, arrow, name.0, name.1, place);
    Ok(Box::new(alloc, node)?)
}

/// An operator before or behind one operand.
pub fn unary(
    alloc: Global,
    op: UnaryOp,
    of: Box<Expr>,
    place: Place,
) -> Result<Box<Expr>, AllocError>
    ensures { IfOk result (λ e. plain_expr e.value ≡ tree.Unary op (plain_expr of.value) place) }
{
    Ok(Box::new(alloc, Expr::unary(op, of, place))?)
}

pub fn binary(
    alloc: Global,
    op: BinaryOp,
    left: Box<Expr>,
    right: Box<Expr>,
    place: Place,
) -> Result<Box<Expr>, AllocError>
    ensures { IfOk result
        (λ e. plain_expr e.value ≡ tree.Binary op (plain_expr left.value) (plain_expr right.value)
        place) }
{
    Ok(Box::new(alloc, Expr::binary(op, left, right, place))?)
}

/// `=`, or an operator and `=`.
pub fn assign(
    alloc: Global,
    op: Option<BinaryOp>,
    to: Box<Expr>,
    value: Box<Expr>,
    place: Place,
) -> Result<Box<Expr>, AllocError>
    ensures { IfOk result
        (λ e. plain_expr e.value ≡ tree.Assign op (plain_expr to.value) (plain_expr value.value)
        place) }
{
    Ok(Box::new(alloc, Expr::assign(op, to, value, place))?)
}

/// `test ? yes : no`.
pub fn cond(
    alloc: Global,
    test: Box<Expr>,
    yes: Box<Expr>,
    no: Box<Expr>,
    place: Place,
) -> Result<Box<Expr>, AllocError>
    ensures { IfOk result
        (λ e. plain_expr e.value ≡ tree.Cond (plain_expr test.value) (plain_expr yes.value)
        (plain_expr no.value) place) }
{
    Ok(Box::new(alloc, Expr::cond(test, yes, no, place))?)
}

/// `(to) of`.
pub fn cast(
    alloc: Global,
    to: Box<TypeName>,
    of: Box<Expr>,
    place: Place,
) -> Result<Box<Expr>, AllocError>
    ensures { IfOk result
        (λ e. plain_expr e.value ≡ tree.Cast (plain_type to.value) (plain_expr of.value) place) }
{
    Ok(Box::new(alloc, Expr::cast(to, of, place))?)
}

/// `sizeof (named)`.
pub fn size_of_type(
    alloc: Global,
    named: Box<TypeName>,
    place: Place,
) -> Result<Box<Expr>, AllocError>
    ensures { IfOk result
        (λ e. plain_expr e.value ≡ tree.SizeOfType (plain_type named.value) place) }
{
    Ok(Box::new(alloc, Expr::size_of_type(named, place))?)
}

/// `sizeof of`.
pub fn size_of_expr(alloc: Global, of: Box<Expr>, place: Place) -> Result<Box<Expr>, AllocError>
    ensures { IfOk result (λ e. plain_expr e.value ≡ tree.SizeOfExpr (plain_expr of.value) place) }
{
    Ok(Box::new(alloc, Expr::size_of_expr(of, place))?)
}
