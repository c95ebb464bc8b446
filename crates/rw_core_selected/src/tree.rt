// Trees of decisions.

use sqlite_items::{Boxed, Items};

/// What is evaluated in one step. Variables are numbered from 0: the parameters, then from outside inwards those of lets.
#[derive(Drop)]
pub enum STerm {
    /// A variable.
    Local(u32),
    /// A data type, by its number in the table, a constructor of it, by its place, and all its fields.
    Con(u32, u32, Items<STerm>),
    /// Of a value with the constructor of this place, the field of this place.
    Field(u32, u32, Boxed<STerm>),
    /// A function of the program, by its number, with all its arguments.
    Call(u32, Items<STerm>),
}

/// A tree of decisions (Maranget, Compiling pattern matching to good decision trees, 2008).
#[cycle(tree)]
#[derive(Drop)]
pub enum STree {
    /// The branch of the constructor that the value has, or what stands for all others.
    Switch(STerm, Items<SBranch>, SOther),
    /// A variable more, and what follows.
    Let(STerm, Boxed<STree>),
    /// The value.
    Result(STerm),
}

/// A branch: the place of a constructor, and what is done where the value has it.
#[cycle(tree)]
#[derive(Drop)]
pub struct SBranch {
    pub tag: u32,
    pub tree: STree,
}

/// What is done where no branch has the constructor.
#[cycle(tree)]
#[derive(Drop)]
pub enum SOther {
    /// There is no other constructor, or none that comes here.
    Never,
    Tree(Boxed<STree>),
}

/// A function: the types of its parameters and of its value, which are numbers in the program's table, and its body.
#[derive(Drop)]
pub struct SFun {
    pub params: Items<u32>,
    pub result: u32,
    pub body: STree,
}
