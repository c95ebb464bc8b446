// The tree of a source of the explicit form, with the names that stand in it.

use rw_base::Name;
use sqlite_items::Items;

/// `data C = C | C ..`: a data type and its constructors, in the order of the source.
#[derive(Drop)]
pub struct Data {
    pub name: Name,
    pub constructors: Items<Name>,
}

/// The types of a device's inputs and outputs, by name.
#[derive(Drop)]
pub struct Ports {
    pub input: Name,
    pub output: Name,
}

/// `C -> v`: the function that goes on after an input.
#[derive(Drop)]
pub struct Arm {
    pub constructor: Name,
    pub target: Name,
}

/// `v = signal C >>= \x -> case x of { .. }`: a function, the output that it shows, the variable that it binds, and
/// an arm for each input.
#[derive(Drop)]
pub struct Function {
    pub name: Name,
    pub shown: Name,
    pub bound: Name,
    pub arms: Items<Arm>,
}

/// A whole source: its data types, the types of its ports, the function that `start` names, and the functions.
#[derive(Drop)]
pub struct Form {
    pub datas: Items<Data>,
    pub ports: Ports,
    pub start: Name,
    pub functions: Items<Function>,
}
