// Functions, and what has a name and a width.

use crate::{Ident, VExpr, VStmt};
use sqlite_items::Items;

/// A variable or a signal, with its width in bits.
#[derive(Drop)]
pub struct Var {
    pub name: Ident,
    pub width: u32,
}

/// A function: its parameters and variables in order, its statements, and what it returns.
#[derive(Drop)]
pub struct Function {
    pub name: Ident,
    pub params: Items<Ident>,
    pub vars: Items<Var>,
    pub body: Items<VStmt>,
    pub result: VExpr,
}
