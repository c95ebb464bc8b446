// The typings of a whole program.
ghost use Rattle.std.specs.Prelude.{◌≡◌, All, IfOk, Some, None, map};
ghost use Rattle.rw_base.specs.declared.place.Place.{Place as PlainPlace};
ghost use Rattle.rw_base.specs.declared.rule.Rule.TheVariants.{E13};
ghost use Rattle.rw_base.specs.Answers.{IsJudged};
ghost use Rattle.rw_tree.specs.Views.{itself};
ghost use Rattle.rw_tree.specs.Declarations.{declaration, plain_program};
ghost use Rattle.rw_types_rules.specs.Schemes.{world_of};
ghost use Rattle.rw_types_equations.specs.Seen.{seen_world};
ghost use Rattle.rw_types.specs.Inferred.{AreTypable, FirstUntypable, HasSharedTypes, IsInferred};
ghost use Rattle.rw_types.specs.Inside.{IsInferredAlone};

use crate::TypedDecl;
use crate::declaration::infer_declaration;
use crate::place::label;
use rw_base::{Fail, Refusal, Rule};
use rw_scope_rules::Bound;
use rw_tree::{Decl, Program};
use rw_types_equations::World;
use rw_types_solving::Unsolved;
use rw_types_world::world;
use sqlite_items::Items;
use std::alloc::Global;

// The default typing of a declaration, or E13 at the declaration.
fn infer_one(alloc: Global, decl: &Decl<Bound>, world: &World) -> Result<TypedDecl, Fail>
    ensures inferred { IsInferredAlone (seen_world world.now) (declaration itself decl.now) result }
    ensures shared { IfOk result (λ made. HasSharedTypes made) }
{
    match infer_declaration(alloc, decl, world) {
        Ok(typed) => Ok(typed),
        Err(Unsolved::OutOfMemory) => Err(Fail::OutOfMemory),
        Err(Unsolved::Refused(_)) => Err(Fail::Refused(Refusal {
            rule: Rule::E13,
            place: label(decl).span.first,
        })),
    }
}

// The default typings of declarations, or E13 at the first that has none.
fn infer_all(alloc: Global, decls: &[Decl<Bound>], world: &World) -> Result<Items<TypedDecl>, Fail>
    ensures inferred { IsInferred (seen_world world.now) (map (declaration itself) decls.now) result }
    ensures shared { IfOk result (λ made. All HasSharedTypes made) }
{
    let mut all = Items::new(alloc);
    for decl in decls {
        let typed = infer_one(alloc, decl, world)?;
        all.push(typed)?;
    }
    Ok(all)
}

/// The types of a program whose names are bound (rule E13; Haskell 2010 Report, chapters 3 and 4, with one type for each local
/// name): the default typing of each declaration, in order.
///
/// Refused by E13 exactly where a declaration has no typing, at the first of these in the order of the program. The program
/// begins with the prelude's declarations, whose place is 0:0.
pub fn infer(alloc: Global, program: &Program<Bound>) -> Result<Items<TypedDecl>, Fail>
    // Ok: the default typings. Refused: E13 at the first declaration that has no typing.
    ensures inferred { IsInferred (world_of (plain_program (λ a. a.span) program.now).declarations) (plain_program itself program.now).declarations result }
    // Each type of a declaration stands once: two are the same exactly where their places in its table are.
    ensures shared { IfOk result (λ made. All HasSharedTypes made) }
    // Where each declaration has a typing the answer is Ok, unless memory runs out.
    ensures typable { AreTypable (world_of (plain_program (λ a. a.span) program.now).declarations) (plain_program itself program.now).declarations → IsJudged None result }
    // Where one has none the place of the first of them is named, unless memory runs out.
    ensures untypable { (place : PlainPlace) → FirstUntypable (world_of (plain_program (λ a. a.span) program.now).declarations) (plain_program itself program.now).declarations place →
        IsJudged (Some (record { rule = E13; place = place })) result }
{
    let decls = program.decls.as_slice();
    let world = world(alloc, decls)?;
    infer_all(alloc, decls, &world)
}
