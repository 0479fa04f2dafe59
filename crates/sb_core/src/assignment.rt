//! Which locals a statement assigns.
ghost use Rattle.std.specs.Prelude.{◌≡◌, ◌++◌, IfOk};
ghost use Rattle.sb_core.specs.Assigned.{targets, targets_in, targets_behind, targets_of, AreAssigned};
ghost use Rattle.sb_core.specs.Plain.{plain_statement, plain_statements, plain_section, plain_sections, statement_list, section_list};

use crate::statement::{CoreStmt, Section};
use std::alloc::{AllocError, Global};

#[cycle(targets)]
#[tactic(auto, unfolding(crate::specs::Plain::plain_statement, crate::specs::Assigned::targets))]
fn push_targets(statement: &CoreStmt, found: &mut Vec<u32>) -> Result<(), AllocError>
    ensures { IfOk result
        (λ _. found.new.items ≡ found.old.items ++ targets (plain_statement statement.now)) }
{
    match statement {
        CoreStmt::Set { local, .. }
        | CoreStmt::Init { local, .. }
        | CoreStmt::Call {
            into: Some(local),
            ..
        } => {
            found.push(*local)?;
            Ok(())
        }
        CoreStmt::If { yes, no, .. } => {
            push_targets(yes, found)?;
            push_targets(no, found)
        }
        CoreStmt::Loop {
            before,
            body,
            after,
            ..
        } => {
            push_targets_in(before, found)?;
            push_targets(body, found)?;
            push_targets_in(after, found)
        }
        CoreStmt::Switch { body, .. } => push_targets(body, found),
        CoreStmt::Block { sections, .. } => push_targets_behind(sections, found),
        CoreStmt::Call { into: None, .. }
        | CoreStmt::Store { .. }
        | CoreStmt::Copy { .. }
        | CoreStmt::Break
        | CoreStmt::Continue
        | CoreStmt::Goto(_)
        | CoreStmt::Return { .. }
        | CoreStmt::End(_) => Ok(()),
    }
}

#[cycle(targets)]
fn push_targets_in(list: &[CoreStmt], found: &mut Vec<u32>) -> Result<(), AllocError>
    ensures { IfOk result
        (λ _. found.new.items ≡ found.old.items
        ++ targets_in (statement_list (plain_statements list.now))) }
{
    for statement in list {
        push_targets(statement, found)?;
    }
    Ok(())
}

#[cycle(targets)]
fn push_targets_behind(list: &[Section], found: &mut Vec<u32>) -> Result<(), AllocError>
    ensures { IfOk result
        (λ _. found.new.items ≡ found.old.items
        ++ targets_behind (section_list (plain_sections list.now))) }
{
    for section in list {
        push_targets_of(section, found)?;
    }
    Ok(())
}

#[cycle(targets)]
#[tactic(auto, unfolding(crate::specs::Plain::plain_section, crate::specs::Assigned::targets_of))]
fn push_targets_of(section: &Section, found: &mut Vec<u32>) -> Result<(), AllocError>
    ensures { IfOk result
        (λ _. found.new.items ≡ found.old.items ++ targets_of (plain_section section.now)) }
{
    push_targets_in(&section.list, found)
}

/// The locals that a statement assigns, by rising numbers, each once.
///
/// Want of memory may come at any time.
pub fn assigned(alloc: Global, body: &CoreStmt) -> Result<Vec<u32>, AllocError>
    ensures assigned { IfOk result
        (λ locals. AreAssigned (plain_statement body.now) locals.items) }
{
    let mut locals = Vec::new(alloc);
    push_targets(body, &mut locals)?;
    locals.sort_unstable();
    locals.dedup();
    Ok(locals)
}
