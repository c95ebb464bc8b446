// Expressions and statements, made part by part with their levels; a chain is grouped as its operands are made.
ghost use Rattle.std.specs.Prelude.{◌≡◌, List, map, reverse};
ghost use Rattle.rw_base.specs.declared.place.Span.{Span};
ghost use Rattle.rw_tree.specs.declared.expr.Expr.{Expr};
ghost use Rattle.rw_tree.specs.declared.expr.Expr.TheVariants as e;
ghost use Rattle.rw_parser_chains.specs.Fixities.{strength_at};
ghost use Rattle.rw_base.specs.Answers.{Gives};
ghost use Rattle.rw_parser_chains.specs.Resolving.{all_of, below_of, expression_made, statement_made};
ghost use Rattle.rw_parser_fixity.specs.Nodes as spec;

use crate::clause::{clauses, locals};
use crate::nodes::{
    Parts, abstracted, applied, bind, chosen, declared, examined, let_statement, run, tupled,
};
use rw_base::Span;
use rw_parser_chains::{
    Broken, Counted, Fixities, Unresolved, Waiting, below, close, pattern_fits, patterns_fit,
    settle,
};
use rw_tree::{Expr, Stmt};
use sqlite_items::Items;
use std::alloc::Global;

/// The expression with its chains grouped, and its levels.
#[cycle(resolving)]
#[tactic(auto, using(rw_parser_chains::proofs::Forms::made_forms))]
pub fn expression(
    alloc: Global,
    fixities: &Fixities,
    expr: &Expr<Span>,
) -> Result<Counted, Unresolved>
    ensures { Gives (λ c. c) result (expression_made (strength_at fixities.now) expr.now) }
{
    match expr {
        Expr::Var(at, name) => Ok((Expr::Var(*at, name.copied(alloc)?), 1)),
        Expr::Con(at, name) => Ok((Expr::Con(*at, name.copied(alloc)?), 1)),
        Expr::Apply(at, head, parts) => {
            let head = expression(alloc, fixities, head.get())?;
            let parts = expressions(alloc, fixities, parts.as_slice())?;
            applied(alloc, *at, head, parts)
        }
        Expr::Tuple(at, parts) => {
            let parts = expressions(alloc, fixities, parts.as_slice())?;
            tupled(*at, parts)
        }
        Expr::Chain(_, _, _) => chain(alloc, fixities, expr),
        Expr::Lambda(at, pats, body) => {
            let levels = patterns_fit(pats.as_slice())?;
            let body = expression(alloc, fixities, body.get())?;
            abstracted(alloc, *at, pats.as_slice(), levels, body)
        }
        Expr::Let(at, bindings, body) => {
            let bindings = locals(alloc, fixities, bindings.as_slice())?;
            let body = expression(alloc, fixities, body.get())?;
            declared(alloc, *at, bindings, body)
        }
        Expr::If(at, test, yes, no) => {
            let test = expression(alloc, fixities, test.get())?;
            let yes = expression(alloc, fixities, yes.get())?;
            let no = expression(alloc, fixities, no.get())?;
            chosen(alloc, *at, test, yes, no)
        }
        Expr::Case(at, scrutinee, rows) => {
            let scrutinee = expression(alloc, fixities, scrutinee.get())?;
            let rows = clauses(alloc, fixities, rows.as_slice())?;
            examined(alloc, *at, scrutinee, rows)
        }
        Expr::Do(at, stmts) => {
            let (stmts, levels) = statements(alloc, fixities, stmts.as_slice())?;
            Ok((Expr::Do(*at, stmts), levels))
        }
    }
}

// Expressions beside one another.
#[cycle(resolving)]
fn expressions(
    alloc: Global,
    fixities: &Fixities,
    exprs: &[Expr<Span>],
) -> Result<Parts<Expr<Span>>, Unresolved>
    ensures { Gives (λ c. c) result (all_of (map (expression_made (strength_at fixities.now)) exprs.now)) }
{
    let mut made = Items::new(alloc);
    let mut levels = 0;
    for expr in exprs {
        let (one, one_levels) = expression(alloc, fixities, expr)?;
        made.push(one)?;
        levels = levels.max(one_levels);
    }
    Ok((made, levels))
}

// An operand and the operator behind it: what is tighter takes the operand, and the rest waits.
fn turn(
    alloc: Global,
    fixities: &Fixities,
    waiting: &mut Vec<Waiting>,
    operand: Counted,
    operator: Counted,
) -> Result<(), Unresolved>
    ensures { Gives (λ _. reverse waiting.new.items) result (spec.turned (strength_at fixities.now) operator (reverse waiting.old.items) operand) }
{
    let operand = settle(alloc, fixities, &operator.0, waiting, operand)?;
    waiting.push((operand, operator))?;
    Ok(())
}

// A chain: one operand more than operators, each operator behind the operand of its number.
#[cycle(resolving)]
fn chain(alloc: Global, fixities: &Fixities, expr: &Expr<Span>) -> Result<Counted, Unresolved>
    ensures { (at : Span) (operands operators : List (Expr Span)) → expr.now ≡ e.Chain at operands operators → Gives (λ c. c) result (expression_made (strength_at fixities.now) expr.now) }
{
    let Expr::Chain(_, operands, operators) = expr else {
        return Err(Unresolved::Refused(Broken));
    };
    let operands = operands.as_slice();
    let operators = operators.as_slice();
    if operands.len() != operators.len() + 1 {
        return Err(Unresolved::Refused(Broken));
    }
    let mut waiting = Vec::new(alloc);
    for index in 0..operators.len() {
        let operand = expression(alloc, fixities, &operands[index])?;
        let operator = expression(alloc, fixities, &operators[index])?;
        turn(alloc, fixities, &mut waiting, operand, operator)?;
    }
    let last = expression(alloc, fixities, &operands[operators.len()])?;
    close(alloc, waiting, last)
}

// A statement of a `do`.
#[cycle(resolving)]
#[tactic(auto, using(rw_parser_chains::proofs::Forms::made_forms))]
fn statement(
    alloc: Global,
    fixities: &Fixities,
    stmt: &Stmt<Span>,
) -> Result<(Stmt<Span>, usize), Unresolved>
    ensures { Gives (λ c. c) result (statement_made (strength_at fixities.now) stmt.now) }
{
    match stmt {
        Stmt::Bind(at, pat, body) => {
            let levels = pattern_fits(pat)?;
            let body = expression(alloc, fixities, body)?;
            bind(alloc, *at, pat, levels, body)
        }
        Stmt::Let(at, bindings) => {
            let bindings = locals(alloc, fixities, bindings.as_slice())?;
            let_statement(*at, bindings)
        }
        Stmt::Run(at, body) => {
            let body = expression(alloc, fixities, body)?;
            run(*at, body)
        }
    }
}

// The statements of a `do`, each one level below those before it.
#[cycle(resolving)]
fn statements(
    alloc: Global,
    fixities: &Fixities,
    stmts: &[Stmt<Span>],
) -> Result<Parts<Stmt<Span>>, Unresolved>
    ensures { Gives (λ c. c) result (below_of 0 (map (statement_made (strength_at fixities.now)) stmts.now)) }
{
    let mut made = Items::new(alloc);
    let mut levels = 0;
    for (index, stmt) in stmts.iter().enumerate() {
        let (one, one_levels) = statement(alloc, fixities, stmt)?;
        levels = levels.max(below(index, one_levels)?);
        made.push(one)?;
    }
    Ok((made, levels.max(below(stmts.len(), 0)?)))
}
