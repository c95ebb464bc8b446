// The rules on the tree, E06 to E16: each stage's answer, with a place in the prelude reported as that of `start`.
ghost use Rattle.std.specs.Prelude.{◌≡◌, IfOk, map};
ghost use Rattle.rw_tree.specs.Views.{itself};
ghost use Rattle.rw_tree.specs.Declarations.{plain_program};
ghost use Rattle.rw_scope_rules.specs.Bindings.{bound_program};
ghost use Rattle.rw_types_rules.specs.Schemes.{world_of};
ghost use Rattle.rw_types.specs.Inferred.{seen, AreDefault};
ghost use Rattle.rw_front.specs.Stages.{AnswersBy};
ghost use Rattle.rw_front.specs.Verdict.{told_of, Keeps, IsScopedAs, IsTypedAs, IsCoveredAs, StartsAs};

use crate::report::reported;
use rw_base::{Fail, Span};
use rw_cover::cover;
use rw_scope::scope;
use rw_scope_rules::{Bound, Scoped};
use rw_start::check_start;
use rw_tree::Program;
use rw_types::{TypedDecl, infer};
use sqlite_items::Items;
use std::alloc::Global;

// Why there is no answer, as it is reported.
fn told(program: &Program<Span>, fail: Fail) -> Fail
    ensures { result ≡ told_of (plain_program (λ span. span) program.now) fail }
{
    match fail {
        Fail::Refused(refusal) => Fail::Refused(reported(program, refusal)),
        Fail::OutOfMemory => Fail::OutOfMemory,
    }
}

/// E06 to E12: names, kinds, data types and let groups.
pub fn scoped(alloc: Global, program: &Program<Span>) -> Result<Program<Bound>, Fail>
    ensures answers { AnswersBy (Keeps IsScopedAs) (λ _. plain_program (λ span. span) program.now) (plain_program (λ span. span) program.now) result }
    ensures bound { IfOk result (λ made. plain_program itself made ≡ bound_program (plain_program (λ span. span) program.now)) }
{
    match scope(alloc, program) {
        Ok(Scoped { program }) => Ok(program),
        Err(fail) => Err(told(program, fail)),
    }
}

/// E13: the default typing of each declaration.
pub fn typed(
    alloc: Global,
    program: &Program<Span>,
    bound: &Program<Bound>,
) -> Result<Items<TypedDecl>, Fail>
    requires { plain_program itself bound.now ≡ bound_program (plain_program (λ span. span) program.now) }
    ensures answers { AnswersBy (Keeps IsTypedAs) (λ _. plain_program (λ span. span) program.now) (plain_program (λ span. span) program.now) result }
    ensures typed { IfOk result (λ made. AreDefault (world_of (plain_program (λ span. span) program.now).declarations) (plain_program itself bound.now).declarations (map seen made)) }
{
    match infer(alloc, bound) {
        Ok(typed) => Ok(typed),
        Err(fail) => Err(told(program, fail)),
    }
}

/// E14: patterns cover.
pub fn covered(alloc: Global, program: &Program<Span>, bound: &Program<Bound>) -> Result<(), Fail>
    requires { plain_program itself bound.now ≡ bound_program (plain_program (λ span. span) program.now) }
    ensures { AnswersBy (Keeps IsCoveredAs) (λ _. plain_program (λ span. span) program.now) (plain_program (λ span. span) program.now) result }
{
    match cover(alloc, bound) {
        Ok(()) => Ok(()),
        Err(fail) => Err(told(program, fail)),
    }
}

/// E15 and E16: `start` and its system.
pub fn started(alloc: Global, program: &Program<Span>, bound: &Program<Bound>) -> Result<(), Fail>
    requires { plain_program itself bound.now ≡ bound_program (plain_program (λ span. span) program.now) }
    ensures { AnswersBy (Keeps StartsAs) (λ _. plain_program (λ span. span) program.now) (plain_program (λ span. span) program.now) result }
{
    match check_start(alloc, bound) {
        Ok(()) => Ok(()),
        Err(fail) => Err(told(program, fail)),
    }
}
