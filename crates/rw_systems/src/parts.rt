// What a system is made of.

use rw_tree::Expr;
use sqlite_items::Boxed;

/// The parts of a system. The expressions are those of the program that was taken apart, with its annotations.
#[derive(Drop)]
pub enum Parts<'a, A> {
    /// A device.
    Leaf(&'a Expr<A>),
    /// Two systems side by side.
    Par(Boxed<Parts<'a, A>>, Boxed<Parts<'a, A>>),
    /// A system whose outputs are seen through the first expression, and whose inputs are what the second makes of its
    /// output and of an outer input.
    Refold(&'a Expr<A>, &'a Expr<A>, Boxed<Parts<'a, A>>),
}

/// An argument of an application, and its own parts.
#[derive(Drop)]
pub struct Argument<'a, A> {
    pub expression: &'a Expr<A>,
    pub parts: Parts<'a, A>,
}
