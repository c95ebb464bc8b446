// What is left to do: trees and lists of trees whose nodes are to be listed.

use rw_tree::{Alt, Expr, Guard, Local, Pat, Stmt};

// The nodes of one tree, or of several in order.
#[derive(Clone, Copy)]
pub enum Task<'a, A> {
    Nothing,
    Expression(&'a Expr<A>),
    Expressions(&'a [Expr<A>]),
    Pattern(&'a Pat<A>),
    Patterns(&'a [Pat<A>]),
    Clause(&'a Alt<A>),
    Clauses(&'a [Alt<A>]),
    Guards(&'a [Guard<A>]),
    // A let group itself, and what it binds.
    Group(&'a [Local<A>]),
    // What a group binds.
    Bindings(&'a [Local<A>]),
    Binding(&'a Local<A>),
    Statements(&'a [Stmt<A>]),
}

// What stands in a node: three tasks, the first to be done first.
pub struct Parts<'a, A> {
    pub first: Task<'a, A>,
    pub second: Task<'a, A>,
    pub third: Task<'a, A>,
}
