// The declarations of a source (Haskell 2010 Report, chapters 4 and 5, in this project's profile).

use crate::{Alt, Written};
use rw_base::Name;
use sqlite_items::Items;

/// The side on which operators of equal strength group.
#[derive(Clone, Copy, Debug, PartialEq, Eq)]
pub enum Side {
    Left,
    Right,
    Neither,
}

/// A constructor of a data type, and the types of its fields in order.
#[derive(Drop)]
pub struct Constructor {
    pub name: Name,
    pub fields: Items<Written>,
}

/// A data type: its variables and its constructors, in order.
#[derive(Drop)]
pub struct DataDecl {
    pub name: Name,
    pub params: Items<Name>,
    pub constructors: Items<Constructor>,
}

/// A declaration.
#[derive(Drop)]
pub enum Decl<A> {
    /// The import of a module.
    Import(A, Name),
    /// A data type.
    Data(A, DataDecl),
    /// The side and the strength, from 0 to 9, of operators.
    Fixity(A, Side, u32, Items<Name>),
    /// The type of one name or several.
    Sig(A, Items<Name>, Written),
    /// A function or a variable, with its clauses in order.
    Fun(A, Name, Items<Alt<A>>),
}
