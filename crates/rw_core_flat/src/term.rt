// Terms of the flat program: first order, each variable by its number on the way to its place.

use crate::FPat;
use sqlite_items::{Boxed, Items};

/// A term. Its variables are numbered from 0 on the way to their place: the parameters of the function first, then from
/// outside inwards the variables of each pattern, from left to right, and the one variable of each bind in whose second part
/// it stands.
#[cycle(flat)]
#[derive(Drop)]
pub enum FTerm {
    /// A variable.
    Local(u32),
    /// A data type, by its number in the table, a constructor of it, by its place, and all its fields.
    Con(u32, u32, Items<FTerm>),
    /// Values that are matched against rows, of which the first that is taken counts.
    Case(Items<FTerm>, Items<FRow>),
    /// Bindings in order, and what follows them.
    Let(Items<FLet>, Boxed<FTerm>),
    /// A function of the program, by its number, with all its arguments.
    Call(u32, Items<FTerm>),
    /// What stands in place of a call that was expanded.
    Mark(Boxed<FTerm>),
    /// `return`.
    Return(Boxed<FTerm>),
    /// `get`.
    Get,
    /// `put`.
    Put(Boxed<FTerm>),
    /// `lift`.
    Lift(Boxed<FTerm>),
    /// `>>=`: the second part has one variable more, which stands for the value of the first.
    Bind(Boxed<FTerm>, Boxed<FTerm>),
    /// `signal`.
    Signal(Boxed<FTerm>),
    /// `extrude`: a device with one layer more, and the state that it starts with.
    Extrude(Boxed<FTerm>, Boxed<FTerm>),
}

/// A binding: a value is matched against the pattern, whose variables later terms see.
#[cycle(flat)]
#[derive(Drop)]
pub struct FLet {
    pub pat: FPat,
    pub term: FTerm,
}

/// A row: a pattern for each value that is matched, what is bound before the guards, and the arms.
#[cycle(flat)]
#[derive(Drop)]
pub struct FRow {
    pub pats: Items<FPat>,
    pub lets: Items<FLet>,
    pub arms: FArms,
}

/// The arms of a row, as a right side has them: one body, or guarded ones in order, after which the row is passed over.
#[cycle(flat)]
#[derive(Drop)]
pub enum FArms {
    Body(FTerm),
    Guarded(Items<FArm>),
}

/// A guard and its body.
#[cycle(flat)]
#[derive(Drop)]
pub struct FArm {
    pub guard: FTerm,
    pub body: FTerm,
}
