// Pure terms and functions: those of the flat program without computations.

use rw_core_flat::FPat;
use sqlite_items::{Boxed, Items};

/// A pure term. Variables are numbered as in flat terms: the parameters first, then from outside inwards the variables of each
/// pattern, from left to right.
#[cycle(pure)]
#[derive(Drop)]
pub enum PTerm {
    /// A variable.
    Local(u32),
    /// A data type, by its number in the table, a constructor of it, by its place, and all its fields.
    Con(u32, u32, Items<PTerm>),
    /// Values that are matched against rows, of which the first that is taken counts.
    Case(Items<PTerm>, Items<PRow>),
    /// Bindings in order, and what follows them.
    Let(Items<PLet>, Boxed<PTerm>),
    /// A pure function of the program, by its number, with all its arguments.
    Call(u32, Items<PTerm>),
}

/// A binding: a value is matched against the pattern, whose variables later terms see.
#[cycle(pure)]
#[derive(Drop)]
pub struct PLet {
    pub pat: FPat,
    pub term: PTerm,
}

/// A row: a pattern for each value that is matched, what is bound before the guards, and the arms.
#[cycle(pure)]
#[derive(Drop)]
pub struct PRow {
    pub pats: Items<FPat>,
    pub lets: Items<PLet>,
    pub arms: PArms,
}

/// The arms of a row: one body, or guarded ones in order, after which the row is passed over.
#[cycle(pure)]
#[derive(Drop)]
pub enum PArms {
    Body(PTerm),
    Guarded(Items<PArm>),
}

/// A guard and its body.
#[cycle(pure)]
#[derive(Drop)]
pub struct PArm {
    pub guard: PTerm,
    pub body: PTerm,
}

/// A pure function: the types of its parameters and of its value, which are numbers in the program's table, and its body.
#[derive(Drop)]
pub struct PFun {
    pub params: Items<u32>,
    pub result: u32,
    pub body: PTerm,
}
