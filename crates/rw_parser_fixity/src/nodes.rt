// Nodes of trees from their parts: each is one level above the highest of them, and none is above the bound.
ghost use Rattle.std.specs.Prelude.{◌≡◌};
ghost use Rattle.rw_base.specs.Answers.{Gives};
ghost use Rattle.rw_parser_fixity.specs.Nodes as spec;

use rw_base::{Name, Span};
use rw_parser_chains::{Counted, Unresolved, above};
use rw_tree::{Alt, Expr, Local, Pat, Rhs, Stmt, Written};
use rw_tree_copies::{copied_pattern, copied_patterns, copied_type};
use sqlite_items::{Boxed, Items};
use std::alloc::Global;

/// Parts beside one another, and the levels of the highest.
pub type Parts<T> = (Items<T>, usize);

/// A function and its arguments.
pub fn applied(
    alloc: Global,
    at: Span,
    head: Counted,
    parts: Parts<Expr<Span>>,
) -> Result<Counted, Unresolved>
    ensures { Gives (λ c. c) result (spec.applied at head parts) }
{
    let (head, head_levels) = head;
    let (parts, part_levels) = parts;
    let levels = above(head_levels.max(part_levels))?;
    Ok((Expr::Apply(at, Boxed::new(alloc, head)?, parts), levels))
}

/// A tuple.
pub fn tupled(at: Span, parts: Parts<Expr<Span>>) -> Result<Counted, Unresolved>
    ensures { Gives (λ c. c) result (spec.tupled at parts) }
{
    let (parts, part_levels) = parts;
    let levels = above(part_levels)?;
    Ok((Expr::Tuple(at, parts), levels))
}

/// A lambda, whose patterns have so many levels.
pub fn abstracted(
    alloc: Global,
    at: Span,
    pats: &[Pat<Span>],
    pats_levels: usize,
    body: Counted,
) -> Result<Counted, Unresolved>
    ensures { Gives (λ c. c) result (spec.abstracted at pats.now pats_levels body) }
{
    let (body, body_levels) = body;
    let levels = above(pats_levels.max(body_levels))?;
    let pats = copied_patterns(alloc, pats)?;
    Ok((Expr::Lambda(at, pats, Boxed::new(alloc, body)?), levels))
}

/// A `let` and its body.
pub fn declared(
    alloc: Global,
    at: Span,
    locals: Parts<Local<Span>>,
    body: Counted,
) -> Result<Counted, Unresolved>
    ensures { Gives (λ c. c) result (spec.declared at locals body) }
{
    let (locals, local_levels) = locals;
    let (body, body_levels) = body;
    let levels = above(local_levels.max(body_levels))?;
    Ok((Expr::Let(at, locals, Boxed::new(alloc, body)?), levels))
}

/// An `if`.
pub fn chosen(
    alloc: Global,
    at: Span,
    test: Counted,
    yes: Counted,
    no: Counted,
) -> Result<Counted, Unresolved>
    ensures { Gives (λ c. c) result (spec.chosen at test yes no) }
{
    let (test, test_levels) = test;
    let (yes, yes_levels) = yes;
    let (no, no_levels) = no;
    let levels = above(test_levels.max(yes_levels.max(no_levels)))?;
    let test = Boxed::new(alloc, test)?;
    let yes = Boxed::new(alloc, yes)?;
    Ok((Expr::If(at, test, yes, Boxed::new(alloc, no)?), levels))
}

/// A `case`.
pub fn examined(
    alloc: Global,
    at: Span,
    scrutinee: Counted,
    rows: Parts<Alt<Span>>,
) -> Result<Counted, Unresolved>
    ensures { Gives (λ c. c) result (spec.examined at scrutinee rows) }
{
    let (scrutinee, scrutinee_levels) = scrutinee;
    let (rows, row_levels) = rows;
    let levels = above(scrutinee_levels.max(row_levels))?;
    Ok((Expr::Case(at, Boxed::new(alloc, scrutinee)?, rows), levels))
}

/// A clause or an alternative, whose patterns have so many levels.
pub fn clause_of(
    alloc: Global,
    given: &Alt<Span>,
    pats_levels: usize,
    rhs: (Rhs<Span>, usize),
    wheres: Parts<Local<Span>>,
) -> Result<(Alt<Span>, usize), Unresolved>
    ensures { Gives (λ c. c) result (spec.clause_of given.now pats_levels rhs wheres) }
{
    let (rhs, rhs_levels) = rhs;
    let (wheres, local_levels) = wheres;
    let levels = above(pats_levels.max(rhs_levels.max(local_levels)))?;
    let pats = copied_patterns(alloc, given.pats.as_slice())?;
    let made = Alt {
        at: given.at,
        pats,
        rhs,
        wheres,
    };
    Ok((made, levels))
}

/// A local signature, whose type has so many levels.
pub fn signature(
    alloc: Global,
    at: Span,
    name: &Name,
    written: &Written,
    type_levels: usize,
) -> Result<(Local<Span>, usize), Unresolved>
    ensures { Gives (λ c. c) result (spec.signature at name.now written.now type_levels) }
{
    let levels = above(type_levels)?;
    let name = name.copied(alloc)?;
    Ok((Local::Sig(at, name, copied_type(alloc, written)?), levels))
}

/// A local function.
pub fn function(
    alloc: Global,
    at: Span,
    name: &Name,
    rows: Parts<Alt<Span>>,
) -> Result<(Local<Span>, usize), Unresolved>
    ensures { Gives (λ c. c) result (spec.function at name.now rows) }
{
    let (rows, row_levels) = rows;
    let levels = above(row_levels)?;
    Ok((Local::Fun(at, name.copied(alloc)?, rows), levels))
}

/// A pattern that is bound.
pub fn bound(at: Span, row: (Alt<Span>, usize)) -> Result<(Local<Span>, usize), Unresolved>
    ensures { Gives (λ c. c) result (spec.bound at row) }
{
    let (row, row_levels) = row;
    let levels = above(row_levels)?;
    Ok((Local::Pattern(at, row), levels))
}

/// `pattern <- body`, whose pattern has so many levels.
pub fn bind(
    alloc: Global,
    at: Span,
    pat: &Pat<Span>,
    pat_levels: usize,
    body: Counted,
) -> Result<(Stmt<Span>, usize), Unresolved>
    ensures { Gives (λ c. c) result (spec.bind at pat.now pat_levels body) }
{
    let (body, body_levels) = body;
    let levels = above(pat_levels.max(body_levels))?;
    Ok((Stmt::Bind(at, copied_pattern(alloc, pat)?, body), levels))
}

/// `let` as a statement.
pub fn let_statement(
    at: Span,
    locals: Parts<Local<Span>>,
) -> Result<(Stmt<Span>, usize), Unresolved>
    ensures { Gives (λ c. c) result (spec.let_statement at locals) }
{
    let (locals, local_levels) = locals;
    let levels = above(local_levels)?;
    Ok((Stmt::Let(at, locals), levels))
}

/// An expression as a statement.
pub fn run(at: Span, body: Counted) -> Result<(Stmt<Span>, usize), Unresolved>
    ensures { Gives (λ c. c) result (spec.run at body) }
{
    let (body, body_levels) = body;
    let levels = above(body_levels)?;
    Ok((Stmt::Run(at, body), levels))
}
