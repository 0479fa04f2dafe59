//! How deep trees are (one more than the deepest node in a node's fields), for trees at most 200 deep.
ghost use Rattle.std.specs.Prelude.{◌≡◌, ◌≤◌, max};
ghost use Rattle.sb_tree.specs.Depths.{expr_depth, type_depth, item_depth, arg_depth, note_depth, init_depth, decl_depth, stmt_depth, exprs_depth, items_depth, args_depth, notes_depth, inits_depth, decls_depth, stmts_depth, optional_expr_depth, optional_init_depth, optional_stmt_depth, boxed_expr_depth, boxed_stmt_depth};

use crate::syntax::{Arg, Decl, Expr, Init, Item, Note, Stmt, TypeName};

/// The greater of two depths.
fn deeper(a: u32, b: u32) -> u32
    ensures { result ≡ max a b }
{
    a.max(b)
}

#[cycle(depths)]
#[tactic(auto, unfolding(crate::specs::Plain::plain_expr, crate::specs::Plain::plain_type))]
fn depth_of_expr(e: &Expr) -> u32
    requires { expr_depth e.now ≤ 200 }
    ensures { result ≡ expr_depth e.now }
{
    match e {
        Expr::Number { .. } | Expr::Text { .. } | Expr::Name { .. } => 1,
        Expr::Unary { of, .. } => 1 + depth_of_expr(of),
        Expr::Binary { left, right, .. } => 1 + deeper(depth_of_expr(left), depth_of_expr(right)),
        Expr::Assign { to, value, .. } => 1 + deeper(depth_of_expr(to), depth_of_expr(value)),
        Expr::Cond { test, yes, no, .. } => 1
            + deeper(
                depth_of_expr(test),
                deeper(depth_of_expr(yes), depth_of_expr(no)),
            ),
        Expr::Call { callee, args, .. } => 1 + deeper(depth_of_expr(callee), depth_of_exprs(args)),
        Expr::Index { base, at, .. } => 1 + deeper(depth_of_expr(base), depth_of_expr(at)),
        Expr::Member { of, .. } => 1 + depth_of_expr(of),
        Expr::Cast { to, of, .. } => 1 + deeper(depth_of_type(to), depth_of_expr(of)),
        Expr::SizeOfType { named, .. } => 1 + depth_of_type(named),
        Expr::SizeOfExpr { of, .. } => 1 + depth_of_expr(of),
        Expr::Paren { of, .. } => 1 + depth_of_expr(of),
    }
}

#[cycle(depths)]
#[tactic(auto, unfolding(crate::specs::Plain::plain_expr, crate::specs::Plain::plain_type, crate::specs::Plain::plain_decl, crate::specs::Plain::plain_item))]
fn depth_of_type(t: &TypeName) -> u32
    requires { type_depth t.now ≤ 200 }
    ensures { result ≡ type_depth t.now }
{
    match t {
        TypeName::Base { .. } | TypeName::Named(..) | TypeName::Same(_) => 1,
        TypeName::Const(of) => 1 + depth_of_type(of),
        TypeName::Pointer(to, _) => 1 + depth_of_type(to),
        TypeName::Array { of, length, .. } => 1
            + deeper(depth_of_type(of), depth_of_boxed_expr(length)),
        TypeName::Function {
            result: returned,
            params,
            ..
        } => 1 + deeper(depth_of_type(returned), depth_of_decls(params)),
        TypeName::Struct {
            members: Some(members),
            ..
        } => 1 + depth_of_decls(members),
        TypeName::Enum {
            items: Some(items),
            ..
        } => 1 + depth_of_items(items),
        TypeName::Struct { members: None, .. } | TypeName::Enum { items: None, .. } => 1,
        TypeName::Paren(of, _) => 1 + depth_of_type(of),
    }
}

#[cycle(depths)]
#[tactic(auto, unfolding(crate::specs::Plain::plain_item, crate::specs::Plain::plain_expr))]
fn depth_of_item(item: &Item) -> u32
    requires { item_depth item.now ≤ 200 }
    ensures { result ≡ item_depth item.now }
{
    depth_of_optional_expr(&item.value)
}

#[cycle(depths)]
#[tactic(auto, unfolding(crate::specs::Plain::plain_arg, crate::specs::Plain::plain_expr, crate::specs::Plain::plain_note))]
fn depth_of_arg(arg: &Arg) -> u32
    requires { arg_depth arg.now ≤ 200 }
    ensures { result ≡ arg_depth arg.now }
{
    match arg {
        Arg::Expr(e) => depth_of_expr(e),
        Arg::Note(note) => depth_of_note(note),
    }
}

#[cycle(depths)]
#[tactic(auto, unfolding(crate::specs::Plain::plain_note, crate::specs::Plain::plain_arg))]
fn depth_of_note(note: &Note) -> u32
    requires { note_depth note.now ≤ 200 }
    ensures { result ≡ note_depth note.now }
{
    1 + depth_of_args(&note.args)
}

#[cycle(depths)]
#[tactic(auto, unfolding(crate::specs::Plain::plain_init, crate::specs::Plain::plain_expr))]
fn depth_of_init(init: &Init) -> u32
    requires { init_depth init.now ≤ 200 }
    ensures { result ≡ init_depth init.now }
{
    match init {
        Init::One(e) => 1 + depth_of_expr(e),
        Init::List(list, _) => 1 + depth_of_inits(list),
    }
}

#[cycle(depths)]
#[tactic(auto, unfolding(crate::specs::Plain::plain_decl, crate::specs::Plain::plain_note, crate::specs::Plain::plain_type, crate::specs::Plain::plain_init, crate::specs::Plain::plain_stmt))]
fn depth_of_decl(decl: &Decl) -> u32
    requires { decl_depth decl.now ≤ 200 }
    ensures { result ≡ decl_depth decl.now }
{
    let notes = depth_of_notes(&decl.notes);
    let type_name = depth_of_type(&decl.type_name);
    let init = depth_of_optional_init(&decl.init);
    let body = depth_of_optional_stmt(&decl.body);
    1 + deeper(notes, deeper(type_name, deeper(init, body)))
}

#[cycle(depths)]
#[tactic(auto, unfolding(crate::specs::Plain::plain_stmt, crate::specs::Plain::plain_expr, crate::specs::Plain::plain_decl))]
fn depth_of_stmt(stmt: &Stmt) -> u32
    requires { stmt_depth stmt.now ≤ 200 }
    ensures { result ≡ stmt_depth stmt.now }
{
    match stmt {
        Stmt::Goto { .. } | Stmt::Break(_) | Stmt::Continue(_) => 1,
        Stmt::Block { list, .. } => 1 + depth_of_stmts(list),
        Stmt::Expr { value, .. } => 1 + depth_of_optional_expr(value),
        Stmt::Decl { list, .. } => 1 + depth_of_decls(list),
        Stmt::If { test, yes, no, .. } => 1
            + deeper(
                depth_of_expr(test),
                deeper(depth_of_stmt(yes), depth_of_boxed_stmt(no)),
            ),
        Stmt::While { test, body, .. } => 1 + deeper(depth_of_expr(test), depth_of_stmt(body)),
        Stmt::Do { body, test, .. } => 1 + deeper(depth_of_stmt(body), depth_of_expr(test)),
        Stmt::For {
            first,
            test,
            step,
            body,
            ..
        } => 1
            + deeper(
                depth_of_boxed_stmt(first),
                deeper(
                    depth_of_optional_expr(test),
                    deeper(depth_of_optional_expr(step), depth_of_stmt(body)),
                ),
            ),
        Stmt::Switch { on, body, .. } => 1 + deeper(depth_of_expr(on), depth_of_stmt(body)),
        Stmt::Case { value, body, .. } => 1 + deeper(depth_of_expr(value), depth_of_stmt(body)),
        Stmt::Default { body, .. } => 1 + depth_of_stmt(body),
        Stmt::Label { body, .. } => 1 + depth_of_stmt(body),
        Stmt::Return { value, .. } => 1 + depth_of_optional_expr(value),
    }
}

#[cycle(depths)]
fn depth_of_optional_expr(part: &Option<Expr>) -> u32
    requires { optional_expr_depth part.now ≤ 200 }
    ensures { result ≡ optional_expr_depth part.now }
{
    match part {
        Some(part) => depth_of_expr(part),
        None => 0,
    }
}

#[cycle(depths)]
fn depth_of_boxed_expr(part: &Option<Box<Expr>>) -> u32
    requires { boxed_expr_depth part.now ≤ 200 }
    ensures { result ≡ boxed_expr_depth part.now }
{
    match part {
        Some(part) => depth_of_expr(part),
        None => 0,
    }
}

#[cycle(depths)]
fn depth_of_optional_stmt(part: &Option<Stmt>) -> u32
    requires { optional_stmt_depth part.now ≤ 200 }
    ensures { result ≡ optional_stmt_depth part.now }
{
    match part {
        Some(part) => depth_of_stmt(part),
        None => 0,
    }
}

#[cycle(depths)]
fn depth_of_boxed_stmt(part: &Option<Box<Stmt>>) -> u32
    requires { boxed_stmt_depth part.now ≤ 200 }
    ensures { result ≡ boxed_stmt_depth part.now }
{
    match part {
        Some(part) => depth_of_stmt(part),
        None => 0,
    }
}

#[cycle(depths)]
fn depth_of_optional_init(part: &Option<Init>) -> u32
    requires { optional_init_depth part.now ≤ 200 }
    ensures { result ≡ optional_init_depth part.now }
{
    match part {
        Some(part) => depth_of_init(part),
        None => 0,
    }
}

#[cycle(depths)]
fn depth_of_exprs(list: &[Expr]) -> u32
    requires { exprs_depth list.now ≤ 200 }
    ensures { result ≡ exprs_depth list.now }
{
    let mut depth = 0;
    for part in list {
        depth = deeper(depth, depth_of_expr(part));
    }
    depth
}

#[cycle(depths)]
fn depth_of_items(list: &[Item]) -> u32
    requires { items_depth list.now ≤ 200 }
    ensures { result ≡ items_depth list.now }
{
    let mut depth = 0;
    for part in list {
        depth = deeper(depth, depth_of_item(part));
    }
    depth
}

#[cycle(depths)]
fn depth_of_args(list: &[Arg]) -> u32
    requires { args_depth list.now ≤ 200 }
    ensures { result ≡ args_depth list.now }
{
    let mut depth = 0;
    for part in list {
        depth = deeper(depth, depth_of_arg(part));
    }
    depth
}

#[cycle(depths)]
fn depth_of_notes(list: &[Note]) -> u32
    requires { notes_depth list.now ≤ 200 }
    ensures { result ≡ notes_depth list.now }
{
    let mut depth = 0;
    for part in list {
        depth = deeper(depth, depth_of_note(part));
    }
    depth
}

#[cycle(depths)]
fn depth_of_inits(list: &[Init]) -> u32
    requires { inits_depth list.now ≤ 200 }
    ensures { result ≡ inits_depth list.now }
{
    let mut depth = 0;
    for part in list {
        depth = deeper(depth, depth_of_init(part));
    }
    depth
}

#[cycle(depths)]
pub(crate) fn depth_of_decls(list: &[Decl]) -> u32
    requires { decls_depth list.now ≤ 200 }
    ensures { result ≡ decls_depth list.now }
{
    let mut depth = 0;
    for part in list {
        depth = deeper(depth, depth_of_decl(part));
    }
    depth
}

#[cycle(depths)]
fn depth_of_stmts(list: &[Stmt]) -> u32
    requires { stmts_depth list.now ≤ 200 }
    ensures { result ≡ stmts_depth list.now }
{
    let mut depth = 0;
    for part in list {
        depth = deeper(depth, depth_of_stmt(part));
    }
    depth
}
