// Whole programs with their chains grouped.
ghost use Rattle.std.specs.Prelude.{◌≡◌, Ok, Err, IfOk};
ghost use Rattle.rw_base.specs.declared.place.Place.{Place};
ghost use Rattle.rw_base.specs.declared.place.Span.{Span};
ghost use Rattle.rw_base.specs.Answers.{IsUnlessMemory};
ghost use Rattle.rw_base.specs.declared.fail.Refusal.{Refusal};
ghost use Rattle.rw_base.specs.declared.fail.Failure.TheVariants as fail;
ghost use Rattle.rw_base.specs.declared.rule.Rule.TheVariants as rule;
ghost use Rattle.rw_tree.specs.declared.program.Program.{Program};
ghost use Rattle.rw_parser_grammar.specs.Chains.{strength_of_name};
ghost use Rattle.rw_parser_grammar.specs.Resolution.{IsProgramResolved, FirstDeclarationBroken};

use crate::items::items;
use rw_base::{Fail, Span};
use rw_parser_chains::Fixities;
use rw_tree::Program;
use std::alloc::Global;

/// The program with each chain of operators replaced by the one tree that the fixities of its operators allow: its own
/// declarations count before those of the prelude, and what is not declared is `infixl 9` (Haskell 2010 Report, sections
/// 4.4.2 and 10.6, in this project's profile). All else stays as it is, each span included.
///
/// `a $ b` is the application of a to b. The answer is `Refused` by E05 exactly where an item has a chain without such a
/// tree, or would have more than 512 levels, at the first token of the first such item; each clause of a function is an
/// item.
pub fn resolve_fixity(alloc: Global, program: &Program<Span>) -> Result<Program<Span>, Fail>
    ensures resolved { IfOk result (λ resolved. IsProgramResolved program.now resolved) }
    ensures refused { (refusal : Refusal) → result ≡ Err (fail.Refused refusal) → (refusal.rule ≡ rule.E05) × FirstDeclarationBroken (strength_of_name program.now.decls) program.now.decls refusal.place }
    ensures kept { (resolved : Program Span) → IsProgramResolved program.now resolved → IsUnlessMemory (Ok resolved) result }
    ensures broken { (at : Place) → FirstDeclarationBroken (strength_of_name program.now.decls) program.now.decls at → IsUnlessMemory (Err (fail.Refused (record { rule = rule.E05; place = at }))) result }
{
    let fixities = Fixities::of(alloc, program.decls.as_slice())?;
    Ok(Program {
        decls: items(alloc, &fixities, program.decls.as_slice())?,
    })
}
