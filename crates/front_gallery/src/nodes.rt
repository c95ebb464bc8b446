// Names, types, patterns, expressions and clauses as text: each node in parentheses, with what it is in front of its parts.

use rw_base::{Name, Span};
use rw_tree::{Alt, Expr, Local, Pat, Rhs, Stmt, Written};
use std::alloc::AllocError;

/// The bytes of a name.
pub fn push_name(out: &mut String, name: &Name) -> Result<(), AllocError> {
    for byte in name.as_slice() {
        out.push(char::from(*byte))?;
    }
    Ok(())
}

/// ` (a b)`
pub fn push_names(out: &mut String, names: &[Name]) -> Result<(), AllocError> {
    out.push_str(" (")?;
    for (i, name) in names.iter().enumerate() {
        if i > 0 {
            out.push(' ')?;
        }
        push_name(out, name)?;
    }
    out.push(')')
}

/// A type as written.
#[cycle(types)]
pub fn push_type(out: &mut String, written: &Written) -> Result<(), AllocError> {
    match written {
        Written::Var(name) | Written::Con(name) => push_name(out, name),
        Written::Apply(head, parts) => {
            out.push_str("(apply ")?;
            push_type(out, head.get())?;
            push_types(out, parts.as_slice())?;
            out.push(')')
        }
        Written::Fun(from, to) => {
            out.push_str("(-> ")?;
            push_type(out, from.get())?;
            out.push(' ')?;
            push_type(out, to.get())?;
            out.push(')')
        }
        Written::Tuple(parts) => {
            out.push_str("(tuple")?;
            push_types(out, parts.as_slice())?;
            out.push(')')
        }
    }
}

/// Types, each behind a space.
#[cycle(types)]
pub fn push_types(out: &mut String, types: &[Written]) -> Result<(), AllocError> {
    for written in types {
        out.push(' ')?;
        push_type(out, written)?;
    }
    Ok(())
}

#[cycle(patterns)]
fn push_pattern(out: &mut String, pat: &Pat<Span>) -> Result<(), AllocError> {
    match pat {
        Pat::Wild(_) => out.push('_'),
        Pat::Var(_, name) => push_name(out, name),
        Pat::Con(_, name, parts) => {
            out.push('(')?;
            push_name(out, name)?;
            push_patterns(out, parts.as_slice())?;
            out.push(')')
        }
        Pat::Tuple(_, parts) => {
            out.push_str("(tuple")?;
            push_patterns(out, parts.as_slice())?;
            out.push(')')
        }
    }
}

// Patterns, each behind a space.
#[cycle(patterns)]
fn push_patterns(out: &mut String, pats: &[Pat<Span>]) -> Result<(), AllocError> {
    for pat in pats {
        out.push(' ')?;
        push_pattern(out, pat)?;
    }
    Ok(())
}

#[cycle(nodes)]
fn push_expression(out: &mut String, expr: &Expr<Span>) -> Result<(), AllocError> {
    match expr {
        Expr::Var(_, name) | Expr::Con(_, name) => return push_name(out, name),
        Expr::Apply(_, head, parts) => {
            out.push_str("(apply ")?;
            push_expression(out, head.get())?;
            push_expressions(out, parts.as_slice())?;
        }
        Expr::Tuple(_, parts) => {
            out.push_str("(tuple")?;
            push_expressions(out, parts.as_slice())?;
        }
        Expr::Chain(_, operands, operators) => {
            out.push_str("(chain")?;
            push_expressions(out, operands.as_slice())?;
            push_expressions(out, operators.as_slice())?;
        }
        Expr::Lambda(_, pats, body) => {
            out.push_str("(\\")?;
            push_patterns(out, pats.as_slice())?;
            out.push_str(" -> ")?;
            push_expression(out, body.get())?;
        }
        Expr::Let(_, locals, body) => {
            out.push_str("(let")?;
            push_locals(out, locals.as_slice())?;
            out.push_str(" in ")?;
            push_expression(out, body.get())?;
        }
        Expr::If(_, test, yes, no) => {
            out.push_str("(if ")?;
            push_expression(out, test.get())?;
            out.push(' ')?;
            push_expression(out, yes.get())?;
            out.push(' ')?;
            push_expression(out, no.get())?;
        }
        Expr::Case(_, scrutinee, alts) => {
            out.push_str("(case ")?;
            push_expression(out, scrutinee.get())?;
            push_clauses(out, alts.as_slice())?;
        }
        Expr::Do(_, stmts) => {
            out.push_str("(do")?;
            push_statements(out, stmts.as_slice())?;
        }
    }
    out.push(')')
}

// Expressions, each behind a space.
#[cycle(nodes)]
fn push_expressions(out: &mut String, exprs: &[Expr<Span>]) -> Result<(), AllocError> {
    for expr in exprs {
        out.push(' ')?;
        push_expression(out, expr)?;
    }
    Ok(())
}

/// Clauses or alternatives, each behind a space: ` (p q = body where ..)`, ` (p | test = body)`.
#[cycle(nodes)]
pub fn push_clauses(out: &mut String, clauses: &[Alt<Span>]) -> Result<(), AllocError> {
    for clause in clauses {
        out.push_str(" (")?;
        push_clause(out, clause)?;
        out.push(')')?;
    }
    Ok(())
}

#[cycle(nodes)]
fn push_clause(out: &mut String, clause: &Alt<Span>) -> Result<(), AllocError> {
    push_patterns(out, clause.pats.as_slice())?;
    match &clause.rhs {
        Rhs::Plain(body) => {
            out.push_str(" = ")?;
            push_expression(out, body)?;
        }
        Rhs::Guarded(guards) => {
            for guard in guards.as_slice() {
                out.push_str(" | ")?;
                push_expression(out, &guard.test)?;
                out.push_str(" = ")?;
                push_expression(out, &guard.body)?;
            }
        }
    }
    if !clause.wheres.is_empty() {
        out.push_str(" where")?;
        push_locals(out, clause.wheres.as_slice())?;
    }
    Ok(())
}

// Local declarations, each behind a space.
#[cycle(nodes)]
fn push_locals(out: &mut String, locals: &[Local<Span>]) -> Result<(), AllocError> {
    for local in locals {
        match local {
            Local::Sig(_, name, written) => {
                out.push_str(" (:: ")?;
                push_name(out, name)?;
                out.push(' ')?;
                push_type(out, written)?;
            }
            Local::Fun(_, name, clauses) => {
                out.push_str(" (= ")?;
                push_name(out, name)?;
                push_clauses(out, clauses.as_slice())?;
            }
            Local::Pattern(_, bound) => {
                out.push_str(" (")?;
                push_clause(out, bound)?;
            }
        }
        out.push(')')?;
    }
    Ok(())
}

// Statements, each behind a space.
#[cycle(nodes)]
fn push_statements(out: &mut String, stmts: &[Stmt<Span>]) -> Result<(), AllocError> {
    for stmt in stmts {
        match stmt {
            Stmt::Bind(_, pat, body) => {
                out.push_str(" (")?;
                push_pattern(out, pat)?;
                out.push_str(" <- ")?;
                push_expression(out, body)?;
                out.push(')')?;
            }
            Stmt::Let(_, locals) => {
                out.push_str(" (let")?;
                push_locals(out, locals.as_slice())?;
                out.push(')')?;
            }
            Stmt::Run(_, body) => {
                out.push(' ')?;
                push_expression(out, body)?;
            }
        }
    }
    Ok(())
}
