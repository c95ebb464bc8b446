// The front as a table of contents: a call a stage.
ghost use Rattle.std.specs.Prelude.{◌≡◌, ◌++◌, IfOk, map, Ok, Err};
ghost use Rattle.rw_tree.specs.Declarations.{plain_program};
ghost use Rattle.rw_front.specs.Stages.{AnswersBy};
ghost use Rattle.rw_front.specs.Verdict.{with_prelude, Keeps, IsScopedAs, IsTypedAs, IsCoveredAs, StartsAs, Verdict};
ghost use Rattle.rw_front.specs.Fronts.{Fronts};

use crate::read::read;
use crate::stages::{covered, scoped, started, typed};
use rw_base::{Fail, OutOfMemory, Span};
use rw_prelude::prelude_decls;
use rw_scope_rules::Bound;
use rw_tree::Program;
use rw_types::TypedDecl;
use sqlite_items::Items;
use std::alloc::Global;

/// A source that breaks none of the rules E01 to E16: its program behind the declarations of the prelude, with each name
/// bound, and the typings of its declarations in the same order.
#[derive(Drop)]
pub struct Checked {
    pub program: Program<Bound>,
    pub typed: Items<TypedDecl>,
}

// The source's declarations behind those of the prelude.
fn whole(alloc: Global, program: Program<Span>) -> Result<Program<Span>, OutOfMemory>
    ensures { IfOk result (λ made. plain_program (λ span. span) made ≡ with_prelude program) }
{
    let mut all = prelude_decls(alloc)?;
    all.append(program.decls)?;
    Ok(Program { decls: all })
}

/// The verdict on a source, `bytes` (Haskell 2010 Report, chapters 2 to 5 and 10, in this project's profile): its program
/// and the types of its declarations, or the first of the rules E01 to E16 that it breaks, at the first place where it does,
/// lines and columns from 1. A place in the prelude is that of `start`.
pub fn front(alloc: Global, bytes: &[u8]) -> Result<Checked, Fail>
    ensures verdict { Fronts bytes.now result }
{
    // E01 to E05: bytes, tokens, layout, grammar.
    let program = read(alloc, bytes)?;
    let whole = whole(alloc, program)?;
    // E06 to E12: names, kinds, data types, let groups.
    let bound = scoped(alloc, &whole)?;
    // E13: types.
    let typed = typed(alloc, &whole, &bound)?;
    // E14: patterns.
    covered(alloc, &whole, &bound)?;
    // E15 and E16: `start` and its system.
    started(alloc, &whole, &bound)?;
    Ok(Checked {
        program: bound,
        typed,
    })
}
