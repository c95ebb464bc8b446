// Small programs behind the prelude, scoped with ample memory.

use rw_base::{Fail as Unscoped, Name, OutOfMemory, Place, Refusal, Rule, Span};
use rw_prelude::prelude_decls;
use rw_scope::scope;
use rw_tree::{Decl, Program};
use sqlite_items::Items;
use std::alloc::Global;
use std::test::Fail;

fn on(line: u32) -> Span {
    Span {
        first: Place { line, column: 1 },
        from: 0,
        to: 0,
    }
}

/// The import of a module on this line.
fn import(alloc: Global, line: u32, module: &[u8]) -> Result<Decl<Span>, OutOfMemory> {
    Ok(Decl::Import(on(line), Name::from_slice(alloc, module)?))
}

/// A function without clauses on this line.
fn function(alloc: Global, line: u32, name: &[u8]) -> Result<Decl<Span>, OutOfMemory> {
    let name = Name::from_slice(alloc, name)?;
    Ok(Decl::Fun(on(line), name, Items::new(alloc)))
}

fn program(alloc: Global, decls: Items<Decl<Span>>) -> Program<Span> {
    Program { decls }
}

/// What is wrong with a program, if anything is.
fn wrong(alloc: Global, program: &Program<Span>) -> Result<Option<Refusal>, OutOfMemory> {
    match scope(alloc, program) {
        Ok(_) => Ok(None),
        Err(Unscoped::Refused(refusal)) => Ok(Some(refusal)),
        Err(Unscoped::OutOfMemory) => Err(OutOfMemory),
    }
}

fn broken(rule: Rule, line: u32) -> Option<Refusal> {
    Some(Refusal {
        rule,
        place: on(line).first,
    })
}

#[test]
fn the_prelude_breaks_no_rule(rt: HostRuntime) -> Result<(), Fail> {
    let decls = prelude_decls(rt.alloc()).map_err(|_| "memory")?;
    let program = program(rt.alloc(), decls);
    let found = wrong(rt.alloc(), &program).map_err(|_| "memory")?;
    assert_eq!(rt; found, None);
    Ok(())
}

/// The prelude, and functions on lines 4 and 2 that no signature is for.
fn unsigned(alloc: Global) -> Result<Items<Decl<Span>>, OutOfMemory> {
    let mut decls = prelude_decls(alloc)?;
    decls.push(function(alloc, 4, b"x")?)?;
    decls.push(function(alloc, 2, b"y")?)?;
    Ok(decls)
}

#[test]
fn the_first_place_is_named(rt: HostRuntime) -> Result<(), Fail> {
    let decls = unsigned(rt.alloc()).map_err(|_| "memory")?;
    let program = program(rt.alloc(), decls);
    let found = wrong(rt.alloc(), &program).map_err(|_| "memory")?;
    assert_eq!(rt; found, broken(Rule::E09, 2));
    Ok(())
}

/// The same, and a module that is unknown on line 9.
fn unsigned_and_unknown(alloc: Global) -> Result<Items<Decl<Span>>, OutOfMemory> {
    let mut decls = unsigned(alloc)?;
    decls.push(import(alloc, 9, b"Data.Bits")?)?;
    Ok(decls)
}

#[test]
fn the_first_rule_is_named(rt: HostRuntime) -> Result<(), Fail> {
    let decls = unsigned_and_unknown(rt.alloc()).map_err(|_| "memory")?;
    let program = program(rt.alloc(), decls);
    let found = wrong(rt.alloc(), &program).map_err(|_| "memory")?;
    assert_eq!(rt; found, broken(Rule::E06, 9));
    Ok(())
}
