// What stands between two semicolons of a block, before neighbouring clauses of one name are joined.

use rw_base::{Name, Span};
use rw_tree::{Alt, Decl, Local};

/// One entry of a block of local declarations: a clause of a name, or a declaration that is whole.
#[derive(Drop)]
pub enum Bound {
    Clause(Name, Alt<Span>),
    Whole(Local<Span>),
}

/// One item of a program: a clause of a name, or a declaration that is whole.
#[derive(Drop)]
pub enum Item {
    Clause(Name, Alt<Span>),
    Whole(Decl<Span>),
}
