// The sequential statements of functions and processes.

use crate::{Ident, VExpr};
use rw_base::Bit9;
use sqlite_items::Items;

/// One condition of an `if`.
#[derive(Drop)]
pub enum Test {
    /// `reference = "string"`. The left side is a name, a slice or a call.
    Equal(VExpr, Items<Bit9>),
    /// `rising_edge ( clk )`.
    Rising,
    /// `rst = '1'`.
    Reset,
}

/// A statement.
#[cycle(statements)]
#[derive(Drop)]
pub enum VStmt {
    /// `name := expression` in a function, `name <= expression` in a process.
    Assign(Ident, VExpr),
    /// `if .. elsif .. else .. end if`: at least one branch, and the statements of `else`, none if it is absent.
    If(Items<Branch>, Items<VStmt>),
}

/// A branch of an `if`: its tests, at least one, all of which must hold, and its statements.
#[cycle(statements)]
#[derive(Drop)]
pub struct Branch {
    pub tests: Items<Test>,
    pub body: Items<VStmt>,
}
