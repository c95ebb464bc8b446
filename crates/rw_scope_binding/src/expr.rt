// Expressions and statements: copied, with what each name is bound to.
ghost use Rattle.std.specs.Prelude.{◌≡◌, map, IfOk, OnOk};
ghost use Rattle.rw_tree.specs.Views.{itself};
ghost use Rattle.rw_tree.specs.Trees.{expression, expression_parts, statement, statement_parts};
ghost use Rattle.rw_scope_rules.specs.Bindings.{bound_expression, bound_expressions, bound_statement, bound_statements, inside_statement};
ghost use Rattle.rw_scope_binding.specs.Numbered.{known, after_steps};

use crate::annotation::{bound_to, unnamed};
use crate::clause::bind_clauses;
use crate::group::bind_group;
use crate::locals::Locals;
use crate::pattern::{bind_new_pattern, bind_new_row};
use crate::tops::{Tops, variable_binding};
use rw_base::{OutOfMemory, Span};
use rw_scope_rules::Bound;
use rw_tree::{Expr, Stmt};
use sqlite_items::{Boxed, Items};
use std::alloc::Global;

// An expression in this scope.
#[tactic(auto, using(crate::proofs::Forms::scope_steps))]
#[cycle(binding)]
pub fn bind_expr(
    alloc: Global,
    tops: &Tops,
    scope: &mut Locals,
    expr: &Expr<Span>,
) -> Result<Expr<Bound>, OutOfMemory>
    ensures tree { IfOk result (λ bound. expression itself bound ≡ bound_expression (known tops.now) scope.old (expression itself expr.now)) }
    ensures scope { OnOk result (scope.new ≡ scope.old) }
{
    match expr {
        Expr::Var(at, name) => {
            let binding = variable_binding(tops, scope, name);
            Ok(Expr::Var(bound_to(*at, binding), name.copied(alloc)?))
        }
        Expr::Con(at, name) => {
            let binding = tops.constructors.find(name);
            Ok(Expr::Con(bound_to(*at, binding), name.copied(alloc)?))
        }
        Expr::Apply(at, head, parts) => {
            let head = bind_boxed(alloc, tops, scope, head)?;
            let parts = bind_exprs(alloc, tops, scope, parts.as_slice())?;
            Ok(Expr::Apply(unnamed(*at), head, parts))
        }
        Expr::Tuple(at, parts) => {
            let parts = bind_exprs(alloc, tops, scope, parts.as_slice())?;
            Ok(Expr::Tuple(unnamed(*at), parts))
        }
        Expr::Chain(at, operands, operators) => {
            let operands = bind_exprs(alloc, tops, scope, operands.as_slice())?;
            let operators = bind_exprs(alloc, tops, scope, operators.as_slice())?;
            Ok(Expr::Chain(unnamed(*at), operands, operators))
        }
        Expr::Lambda(at, pats, body) => {
            let outer = scope.depth();
            let pats = bind_new_row(alloc, tops, scope, pats.as_slice())?;
            let body = bind_boxed(alloc, tops, scope, body)?;
            scope.leave(outer)?;
            Ok(Expr::Lambda(unnamed(*at), pats, body))
        }
        Expr::Let(at, locals, body) => {
            let outer = scope.depth();
            let locals = bind_group(alloc, tops, scope, locals.as_slice())?;
            let body = bind_boxed(alloc, tops, scope, body)?;
            scope.leave(outer)?;
            Ok(Expr::Let(unnamed(*at), locals, body))
        }
        Expr::If(at, test, yes, no) => {
            let test = bind_boxed(alloc, tops, scope, test)?;
            let yes = bind_boxed(alloc, tops, scope, yes)?;
            let no = bind_boxed(alloc, tops, scope, no)?;
            Ok(Expr::If(unnamed(*at), test, yes, no))
        }
        Expr::Case(at, scrutinee, clauses) => {
            let scrutinee = bind_boxed(alloc, tops, scope, scrutinee)?;
            let clauses = bind_clauses(alloc, tops, scope, clauses.as_slice())?;
            Ok(Expr::Case(unnamed(*at), scrutinee, clauses))
        }
        Expr::Do(at, stmts) => {
            let outer = scope.depth();
            let stmts = bind_stmts(alloc, tops, scope, stmts.as_slice())?;
            scope.leave(outer)?;
            Ok(Expr::Do(unnamed(*at), stmts))
        }
    }
}

#[cycle(binding)]
fn bind_boxed(
    alloc: Global,
    tops: &Tops,
    scope: &mut Locals,
    expr: &Boxed<Expr<Span>>,
) -> Result<Boxed<Expr<Bound>>, OutOfMemory>
    ensures tree { IfOk result (λ bound. expression itself bound ≡ bound_expression (known tops.now) scope.old (expression itself expr.now)) }
    ensures scope { OnOk result (scope.new ≡ scope.old) }
{
    Ok(Boxed::new(alloc, bind_expr(alloc, tops, scope, expr.get())?)?)
}

#[cycle(binding)]
fn bind_exprs(
    alloc: Global,
    tops: &Tops,
    scope: &mut Locals,
    exprs: &[Expr<Span>],
) -> Result<Items<Expr<Bound>>, OutOfMemory>
    ensures trees { IfOk result (λ bound. expression_parts (map (expression itself) bound) ≡ bound_expressions (known tops.now) scope.old (expression_parts (map (expression itself) exprs.now))) }
    ensures scope { OnOk result (scope.new ≡ scope.old) }
{
    let mut bound = Items::new(alloc);
    for expr in exprs {
        bound.push(bind_expr(alloc, tops, scope, expr)?)?;
    }
    Ok(bound)
}

// A statement, after which its names are in scope.
#[cycle(binding)]
fn bind_stmt(
    alloc: Global,
    tops: &Tops,
    scope: &mut Locals,
    stmt: &Stmt<Span>,
) -> Result<Stmt<Bound>, OutOfMemory>
    ensures tree { IfOk result (λ bound. statement itself bound ≡ bound_statement (known tops.now) scope.old (statement itself stmt.now)) }
    ensures scope { OnOk result (scope.new ≡ inside_statement (statement itself stmt.now) scope.old) }
{
    match stmt {
        Stmt::Bind(at, pat, body) => {
            let body = bind_expr(alloc, tops, scope, body)?;
            let pat = bind_new_pattern(alloc, tops, scope, pat)?;
            Ok(Stmt::Bind(unnamed(*at), pat, body))
        }
        Stmt::Let(at, locals) => {
            let locals = bind_group(alloc, tops, scope, locals.as_slice())?;
            Ok(Stmt::Let(unnamed(*at), locals))
        }
        Stmt::Run(at, body) => {
            let body = bind_expr(alloc, tops, scope, body)?;
            Ok(Stmt::Run(unnamed(*at), body))
        }
    }
}

#[cycle(binding)]
fn bind_stmts(
    alloc: Global,
    tops: &Tops,
    scope: &mut Locals,
    stmts: &[Stmt<Span>],
) -> Result<Items<Stmt<Bound>>, OutOfMemory>
    ensures trees { IfOk result (λ bound. statement_parts (map (statement itself) bound) ≡ bound_statements (known tops.now) scope.old (statement_parts (map (statement itself) stmts.now))) }
    ensures scope { OnOk result (scope.new ≡ after_steps (map (statement itself) stmts.now) scope.old) }
{
    let mut bound = Items::new(alloc);
    for stmt in stmts {
        bound.push(bind_stmt(alloc, tops, scope, stmt)?)?;
    }
    Ok(bound)
}
