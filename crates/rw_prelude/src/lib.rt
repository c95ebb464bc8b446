//! The declarations of the prelude, as trees: what stands before the declarations of every source.
//!
//! It leaves what a tree is to `rw_tree`, and what the declarations mean to the stages that read them with a source.
//! Scope and types begin every program with these declarations.
//! Begin with `specs/PreludeText.antt`, which has each of them under its lines of text.
#![tactic(auto)]

ghost use Rattle.std.specs.Prelude.{◌≡◌, IfOk};
ghost use Rattle.rw_prelude.specs.PreludeTrees.{Gives};
ghost use Rattle.rw_prelude.specs.PreludeText.{prelude};

use builder::{Builder, Built};
use rw_base::{OutOfMemory, Span};
use rw_tree::Decl;
use sqlite_items::Items;
use std::alloc::Global;

mod builder;
mod data;
mod functions;
mod parts;

/// The declarations of the prelude, in the order of its text (Haskell 2010 Report, chapter 9, in this project's
/// profile). No source declares them: their place is 0:0 and their token numbers are 0 throughout.
#[tactic(auto, unfolding(crate::specs::PreludeTrees::Gives))]
pub fn prelude_decls(alloc: Global) -> Result<Items<Decl<Span>>, OutOfMemory>
    ensures { IfOk result (λ decls. decls ≡ prelude) }
{
    all(Builder { alloc })
}

#[tactic(auto, unfolding(crate::specs::PreludeText::prelude))]
fn all(make: Builder) -> Built<Items<Decl<Span>>>
    ensures { Gives result prelude }
{
    let cases = make.join(make.pairs(), make.cases());
    let functions = make.join(make.combinators(), make.join(make.logic(), cases));
    make.join(make.strengths(), make.join(make.data(), functions))
}
