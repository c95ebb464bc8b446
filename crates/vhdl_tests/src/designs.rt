// Designs made by hand: the two-state switch, and that design with something changed; one that never comes to rest; a wire.

use rw_base::{Bit9, OutOfMemory};
use sqlite_items::Items;
use std::alloc::Global;
use vh_tree::{Branch, Design, Function, Ident, Item, Process, Test, VExpr, VStmt, Var};

type Made<T> = Result<T, OutOfMemory>;

// What differs between the designs that are made of the switch: the width of `v2`, what the function gives back, what
// the register assigns to, and what is shown.
#[derive(Clone, Copy)]
pub struct Plan {
    pub width: u32,
    pub result: &'static [u8],
    pub driven: &'static [u8],
    pub shown: &'static [u8],
}

pub const SWITCH: Plan = Plan {
    width: 1,
    result: b"v2",
    driven: b"s0",
    shown: b"s0",
};

fn one<T: Drop>(alloc: Global, item: T) -> Made<Items<T>> {
    let mut items = Items::new(alloc);
    items.push(item)?;
    Ok(items)
}

fn two<T: Drop>(alloc: Global, first: T, second: T) -> Made<Items<T>> {
    let mut items = one(alloc, first)?;
    items.push(second)?;
    Ok(items)
}

fn id(alloc: Global, name: &[u8]) -> Made<Ident> {
    Ident::from_slice(alloc, name)
}

fn name(alloc: Global, bytes: &[u8]) -> Made<VExpr> {
    Ok(VExpr::Name(id(alloc, bytes)?))
}

fn literal(alloc: Global, bit: Bit9) -> Made<VExpr> {
    Ok(VExpr::Literal(one(alloc, bit)?))
}

fn var(alloc: Global, name: &[u8], width: u32) -> Made<Var> {
    let name = id(alloc, name)?;
    Ok(Var { name, width })
}

fn signal(alloc: Global, name: &[u8]) -> Made<Item> {
    Ok(Item::Signal(var(alloc, name, 1)?))
}

fn assign(alloc: Global, target: &[u8], value: VExpr) -> Made<VStmt> {
    Ok(VStmt::Assign(id(alloc, target)?, value))
}

fn is(alloc: Global, bytes: &[u8], bit: Bit9) -> Made<Test> {
    Ok(Test::Equal(name(alloc, bytes)?, one(alloc, bit)?))
}

// A branch of one test and one statement.
fn branch(alloc: Global, test: Test, stmt: VStmt) -> Made<Branch> {
    Ok(Branch {
        tests: one(alloc, test)?,
        body: one(alloc, stmt)?,
    })
}

// `if test then stmt end if ;`, with what stands behind `else`.
fn choose(alloc: Global, test: Test, stmt: VStmt, other: Items<VStmt>) -> Made<VStmt> {
    Ok(VStmt::If(one(alloc, branch(alloc, test, stmt)?)?, other))
}

// A process that waits for one name and has one statement.
fn process(alloc: Global, heard: &[u8], stmt: VStmt) -> Made<Process> {
    Ok(Process {
        sensitive: one(alloc, id(alloc, heard)?)?,
        body: one(alloc, stmt)?,
    })
}

// A process that assigns one name to another.
fn wire(alloc: Global, from: &[u8], to: &[u8]) -> Made<Process> {
    process(alloc, from, assign(alloc, to, name(alloc, from)?)?)
}

// `if v0 = "1" and v1 = "0" then v2 := "1" ; elsif v0 = "1" then v2 := "0" ; end if ;`
fn next_bit(alloc: Global) -> Made<VStmt> {
    let up = assign(alloc, b"v2", literal(alloc, Bit9::One)?)?;
    let down = assign(alloc, b"v2", literal(alloc, Bit9::Zero)?)?;
    let mut first = branch(alloc, is(alloc, b"v0", Bit9::One)?, up)?;
    first.tests.push(is(alloc, b"v1", Bit9::Zero)?)?;
    let second = branch(alloc, is(alloc, b"v0", Bit9::One)?, down)?;
    Ok(VStmt::If(two(alloc, first, second)?, Items::new(alloc)))
}

fn next_body(alloc: Global) -> Made<Items<VStmt>> {
    let mut body = two(
        alloc,
        assign(alloc, b"v0", name(alloc, b"p0")?)?,
        assign(alloc, b"v1", name(alloc, b"p1")?)?,
    )?;
    body.push(assign(alloc, b"v2", name(alloc, b"v1")?)?)?;
    body.push(next_bit(alloc)?)?;
    Ok(body)
}

// The next state, from the input and the state.
fn next(alloc: Global, plan: Plan) -> Made<Item> {
    let mut vars = two(alloc, var(alloc, b"v0", 1)?, var(alloc, b"v1", 1)?)?;
    vars.push(var(alloc, b"v2", plan.width)?)?;
    Ok(Item::Function(Function {
        name: id(alloc, b"f0")?,
        params: two(alloc, id(alloc, b"p0")?, id(alloc, b"p1")?)?,
        vars,
        body: next_body(alloc)?,
        result: name(alloc, plan.result)?,
    }))
}

// A function without parameters, which returns '0'.
fn low(alloc: Global) -> Made<Item> {
    Ok(Item::Function(Function {
        name: id(alloc, b"f1")?,
        params: Items::new(alloc),
        vars: Items::new(alloc),
        body: Items::new(alloc),
        result: literal(alloc, Bit9::Zero)?,
    }))
}

// `if rising_edge ( clk ) then if rst = '1' then driven <= "0" ; else driven <= f0 ( inp , s0 ) ; end if ; end if ;`
fn register(alloc: Global, driven: &[u8]) -> Made<Process> {
    let start = assign(alloc, driven, literal(alloc, Bit9::Zero)?)?;
    let arguments = two(alloc, name(alloc, b"inp")?, name(alloc, b"s0")?)?;
    let call = VExpr::Call(id(alloc, b"f0")?, arguments);
    let step = one(alloc, assign(alloc, driven, call)?)?;
    let next = choose(alloc, Test::Reset, start, step)?;
    let clocked = choose(alloc, Test::Rising, next, Items::new(alloc))?;
    process(alloc, b"clk", clocked)
}

// A register of one bit that each 1 of the input turns over, but for what the plan changes.
pub fn switch(alloc: Global, plan: Plan) -> Made<Design> {
    Ok(Design {
        inp: 1,
        outp: 1,
        items: two(alloc, signal(alloc, b"s0")?, next(alloc, plan)?)?,
        processes: two(
            alloc,
            register(alloc, plan.driven)?,
            wire(alloc, plan.shown, b"outp")?,
        )?,
    })
}

// The same, with a function `f1` behind the other.
pub fn switch_with_low(alloc: Global, plan: Plan) -> Made<Design> {
    let mut design = switch(alloc, plan)?;
    design.items.push(low(alloc)?)?;
    Ok(design)
}

// Two processes that feed each other, and so never come to rest.
pub fn oscillating(alloc: Global) -> Made<Design> {
    let low = assign(alloc, b"s1", literal(alloc, Bit9::Zero)?)?;
    let high = assign(alloc, b"s1", literal(alloc, Bit9::One)?)?;
    let turned = choose(alloc, is(alloc, b"s0", Bit9::One)?, low, one(alloc, high)?)?;
    let inverter = process(alloc, b"s0", turned)?;
    let mut processes = two(alloc, inverter, wire(alloc, b"s1", b"s0")?)?;
    processes.push(wire(alloc, b"s0", b"outp")?)?;
    Ok(Design {
        inp: 1,
        outp: 1,
        items: two(alloc, signal(alloc, b"s0")?, signal(alloc, b"s1")?)?,
        processes,
    })
}

// A wire from the input to the output.
pub fn pass(alloc: Global, width: u32) -> Made<Design> {
    Ok(Design {
        inp: width,
        outp: width,
        items: Items::new(alloc),
        processes: one(alloc, wire(alloc, b"inp", b"outp")?)?,
    })
}
