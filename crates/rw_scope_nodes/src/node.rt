// What a node is.

use rw_tree::{Alt, Expr, Local, Pat, Stmt};

/// A node of a tree. A group is what one `let` or `where` binds.
#[derive(Clone, Copy)]
pub enum Node<'a, A> {
    Expression(&'a Expr<A>),
    Pattern(&'a Pat<A>),
    Clause(&'a Alt<A>),
    Group(&'a [Local<A>]),
    Binding(&'a Local<A>),
    Statement(&'a Stmt<A>),
}
