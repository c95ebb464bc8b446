// Functions of the flat program.

use crate::FTerm;
use rw_base::{Name, Place};
use sqlite_items::Items;

/// A flat function. Types are numbers in the program's table.
#[derive(Drop)]
pub struct FlatFun {
    /// The name and the place of its declaration; in place of a declaration of the prelude that of `start`.
    pub name: Name,
    pub place: Place,
    pub kind: FunKind,
    /// The types of the parameters, and of its value.
    pub params: Items<u32>,
    pub result: u32,
    pub body: FTerm,
}

/// What a function of the flat program computes.
#[derive(Drop)]
pub enum FunKind {
    /// A value.
    Pure,
    /// A state action over layers with states of these types, the outermost first.
    State(Items<u32>),
    /// A device with inputs and outputs of these types, over such layers.
    Device(u32, u32, Items<u32>),
}
