// Expressions, statements and functions with places in place of names.
use rw_base::Bit9;
use sqlite_items::{Boxed, Items};
use std::rc::Rc;

/// An expression over a frame: a part of it, or what is made of parts.
#[cycle(parts)]
#[derive(Drop)]
pub enum Expr {
    Part(u32, u32),
    Slice(u32, u32, u32, u32),
    Cut(Boxed<Expr>, u32, u32),
    Literal(Items<Bit9>),
    Call(Rc<Fun>, Items<Expr>),
    Join(Items<Expr>),
}

/// A bit of a part of a frame, counted from the last of the part, and a value that it may have.
#[derive(Clone, Copy)]
pub struct Bit {
    pub from: u32,
    pub len: u32,
    pub place: u32,
    pub value: Bit9,
}

#[cycle(parts)]
#[derive(Drop)]
pub struct Test {
    pub left: Expr,
    pub bits: Items<Bit9>,
}

/// A statement of a function: an assignment, a choice, or a choice by one bit.
#[cycle(parts)]
#[derive(Drop)]
pub enum Stmt {
    Assign(u32, Expr),
    If(Items<Branch>, Items<Stmt>),
    When(Bit, Items<Stmt>, Items<Stmt>),
}

#[cycle(parts)]
#[derive(Drop)]
pub struct Branch {
    pub tests: Items<Test>,
    pub body: Items<Stmt>,
}

/// A function: where its frame begins in the store, and how long it is.
#[cycle(parts)]
#[derive(Drop)]
pub struct Fun {
    pub from: u32,
    pub size: u32,
    pub body: Items<Stmt>,
    pub result: Expr,
}
