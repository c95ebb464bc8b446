// Terms and functions of devices without layers.

use crate::{PLet, PTerm};
use rw_core_flat::FPat;
use sqlite_items::{Boxed, Items};

/// A term of a device. Its variables are numbered as those of pure terms; the second part of a bind has one more.
#[cycle(device)]
#[derive(Drop)]
pub enum DTerm {
    /// It shows nothing and is finished with a value.
    Return(PTerm),
    /// It shows a value and is finished with the next input.
    Signal(PTerm),
    /// One device and then, with the value that it is finished with as a variable, another.
    Bind(Boxed<DTerm>, Boxed<DTerm>),
    /// Values that are matched against rows, of which the first that is taken counts.
    Case(Items<PTerm>, Items<DRow>),
    /// Bindings in order, and what follows them.
    Let(Items<PLet>, Boxed<DTerm>),
    /// A device of the program, by its number, with all its arguments.
    Call(u32, Items<PTerm>),
}

/// A row: a pattern for each value that is matched, what is bound before the guards, and the arms.
#[cycle(device)]
#[derive(Drop)]
pub struct DRow {
    pub pats: Items<FPat>,
    pub lets: Items<PLet>,
    pub arms: DArms,
}

/// The arms of a row: one body, or guarded ones in order, after which the row is passed over.
#[cycle(device)]
#[derive(Drop)]
pub enum DArms {
    Body(DTerm),
    Guarded(Items<DArm>),
}

/// A guard and its body.
#[cycle(device)]
#[derive(Drop)]
pub struct DArm {
    pub guard: PTerm,
    pub body: DTerm,
}

/// A device: the types of its parameters, of the value that it is finished with, of its inputs and of its outputs, and its body.
#[derive(Drop)]
pub struct DFun {
    pub params: Items<u32>,
    pub result: u32,
    pub input: u32,
    pub output: u32,
    pub body: DTerm,
}
