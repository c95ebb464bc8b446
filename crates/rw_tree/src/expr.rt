// The expressions of a source (Haskell 2010 Report, chapter 3, in this project's profile).

use crate::{Alt, Local, Pat, Stmt};
use rw_base::Name;
use sqlite_items::{Boxed, Items};

/// An expression. Each node has an annotation: its span, and what a stage finds of it.
#[cycle(tree)]
#[derive(Drop)]
pub enum Expr<A> {
    /// A variable, or an operator that is no constructor.
    Var(A, Name),
    /// A constructor.
    Con(A, Name),
    /// A function and its arguments, at least one.
    Apply(A, Boxed<Expr<A>>, Items<Expr<A>>),
    /// `( a , b )`: two parts or more. Unit, `( )`, is a tuple of none.
    Tuple(A, Items<Expr<A>>),
    /// Operands with operators between them, in order, not grouped yet: one operand more than operators.
    Chain(A, Items<Expr<A>>, Items<Expr<A>>),
    /// `\ patterns -> body`.
    Lambda(A, Items<Pat<A>>, Boxed<Expr<A>>),
    /// `let locals in body`.
    Let(A, Items<Local<A>>, Boxed<Expr<A>>),
    /// `if test then yes else no`.
    If(A, Boxed<Expr<A>>, Boxed<Expr<A>>, Boxed<Expr<A>>),
    /// `case scrutinee of alternatives`, at least one.
    Case(A, Boxed<Expr<A>>, Items<Alt<A>>),
    /// `do statements`, the last of which is an expression.
    Do(A, Items<Stmt<A>>),
}
