// Clauses and alternatives, local bindings and statements (Haskell 2010 Report, sections 3.12 to 3.14 and 4.4.3).

use crate::{Expr, Pat, Written};
use rw_base::Name;
use sqlite_items::Items;

/// A clause of a function or an alternative of a `case`: its patterns, its right side, and the local bindings
/// that follow `where`.
#[cycle(tree)]
#[derive(Drop)]
pub struct Alt<A> {
    pub at: A,
    pub pats: Items<Pat<A>>,
    pub rhs: Rhs<A>,
    pub wheres: Items<Local<A>>,
}

/// A right side: one expression, or guarded ones in order, at least one.
#[cycle(tree)]
#[derive(Drop)]
pub enum Rhs<A> {
    Plain(Expr<A>),
    Guarded(Items<Guard<A>>),
}

/// `| test = body`.
#[cycle(tree)]
#[derive(Drop)]
pub struct Guard<A> {
    pub test: Expr<A>,
    pub body: Expr<A>,
}

/// A local declaration.
#[cycle(tree)]
#[derive(Drop)]
pub enum Local<A> {
    /// `name :: type`.
    Sig(A, Name, Written),
    /// A function or a variable, with its clauses in order.
    Fun(A, Name, Items<Alt<A>>),
    /// A constructor or a tuple pattern that is bound: an alternative with this one pattern.
    Pattern(A, Alt<A>),
}

/// A statement of a `do`.
#[cycle(tree)]
#[derive(Drop)]
pub enum Stmt<A> {
    /// `pattern <- expression`.
    Bind(A, Pat<A>, Expr<A>),
    /// `let locals`.
    Let(A, Items<Local<A>>),
    /// An expression alone.
    Run(A, Expr<A>),
}
