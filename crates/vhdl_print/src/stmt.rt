// Statements at the end of a text.
ghost use Rattle.std.specs.Prelude.{◌≡◌, ◌++◌, OnOk, map};
ghost use Rattle.vh_tree.specs.declared.token.Mark.TheVariants as m;
ghost use Rattle.vh_tree.specs.VToken.{assign_mark};
ghost use Rattle.vh_tree.specs.Canonical.{branch_tokens, else_tokens, separated, spelled, stmt_tokens, stmts_tokens};

use crate::expr::{push_expr, push_tests};
use crate::text::{push_mark, push_marks, push_name};
use rw_base::OutOfMemory;
use vh_tree::{Branch, Mark, Side, VStmt};

/// The mark of an assignment.
fn mark_of(side: Side) -> Mark
    ensures { result ≡ assign_mark side }
{
    match side {
        Side::Function => Mark::Assign,
        Side::Process => Mark::Drive,
    }
}

/// Appends a statement of a function or a process.
#[cycle(statements)]
fn push_stmt(text: &mut Vec<u8>, side: Side, stmt: &VStmt) -> Result<(), OutOfMemory>
    ensures { OnOk result (text.new.items ≡ text.old.items ++ spelled (stmt_tokens side stmt.now)) }
{
    match stmt {
        VStmt::Assign(name, value) => {
            push_name(text, name)?;
            push_mark(text, mark_of(side))?;
            push_expr(text, value)?;
            push_mark(text, Mark::Semicolon)
        }
        VStmt::If(branches, otherwise) => {
            push_mark(text, Mark::If)?;
            push_branches(text, side, branches.as_slice())?;
            push_else(text, side, otherwise.as_slice())?;
            push_marks(text, &[Mark::End, Mark::If, Mark::Semicolon])
        }
    }
}

/// Appends statements.
#[cycle(statements)]
pub fn push_stmts(text: &mut Vec<u8>, side: Side, stmts: &[VStmt]) -> Result<(), OutOfMemory>
    ensures { OnOk result (text.new.items ≡ text.old.items ++ spelled (stmts_tokens side stmts.now)) }
{
    for stmt in stmts {
        push_stmt(text, side, stmt)?;
    }
    Ok(())
}

/// Appends a branch of an `if`.
#[cycle(statements)]
fn push_branch(text: &mut Vec<u8>, side: Side, branch: &Branch) -> Result<(), OutOfMemory>
    ensures { OnOk result (text.new.items ≡ text.old.items ++ spelled (branch_tokens side branch.now)) }
{
    push_tests(text, branch.tests.as_slice())?;
    push_mark(text, Mark::Then)?;
    push_stmts(text, side, branch.body.as_slice())
}

/// Appends branches with `elsif` between two.
#[cycle(statements)]
fn push_branches(text: &mut Vec<u8>, side: Side, branches: &[Branch]) -> Result<(), OutOfMemory>
    ensures { OnOk result (text.new.items ≡ text.old.items ++ spelled (separated m.Elsif (map (branch_tokens side) branches.now))) }
{
    if let [first, others @ ..] = branches {
        push_branch(text, side, first)?;
        for branch in others {
            push_mark(text, Mark::Elsif)?;
            push_branch(text, side, branch)?;
        }
    }
    Ok(())
}

/// Appends `else` and its statements, where there are any.
#[cycle(statements)]
fn push_else(text: &mut Vec<u8>, side: Side, stmts: &[VStmt]) -> Result<(), OutOfMemory>
    ensures { OnOk result (text.new.items ≡ text.old.items ++ spelled (else_tokens (map (stmt_tokens side) stmts.now))) }
{
    if stmts.is_empty() {
        return Ok(());
    }
    push_mark(text, Mark::Else)?;
    push_stmts(text, side, stmts)
}
