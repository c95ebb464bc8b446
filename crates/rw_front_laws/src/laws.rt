// Laws: each is the contract of a function that does nothing, for callers to cite.
ghost use Rattle.std.specs.Prelude.{◌≡◌, ℕ, List, Result, Ok};
ghost use Rattle.rw_base.specs.declared.place.Span.{Span};
ghost use Rattle.rw_base.specs.declared.fail.Refusal.{Refusal};
ghost use Rattle.rw_tree.specs.Declarations.{Declaration, PlainProgram};
ghost use Rattle.rw_scope_rules.specs.Bindings.{bound_program};
ghost use Rattle.rw_types_rules.specs.Schemes.{world_of};
ghost use Rattle.rw_types_rules.specs.TypedTrees.{TypedNode};
ghost use Rattle.rw_types.specs.Inferred.{AreDefault};
ghost use Rattle.rw_front.specs.Verdict.{IsRead, Keeps, IsScopedAs, IsTypedAs, IsCoveredAs, StartsAs, Verdict};
ghost use Rattle.rw_front_laws.specs.Total.{IsTotalAt};

use rw_cover_decision::coverage_is_decided;
use rw_front::one_verdict;
use rw_lex::tokens_or_refusal;
use rw_parser_laws::one_place;
use rw_parser_resolution::each_program_is_judged;
use rw_types_decision::typability_is_decided;

/// Each list of bytes is a program whose chains of operators are grouped, or breaks one of the rules E01 to E05 first, at a place.
pub fn sources_are_read()
    ensures { (bytes : List ℕ) → IsTotalAt IsRead bytes }
{
    tokens_or_refusal();
    one_place();
    each_program_is_judged();
}

/// Each program behind the prelude keeps the rules E06 to E12, on names, kinds, data types and let groups, or breaks one of them
/// first, at a place. So it is with E14, on patterns, and with E15 and E16, on `start` and its system.
pub fn names_patterns_and_start_are_judged()
    ensures names { (program : PlainProgram Span) → IsTotalAt (Keeps IsScopedAs) program }
    ensures patterns { (program : PlainProgram Span) → IsTotalAt (Keeps IsCoveredAs) program }
    ensures start { (program : PlainProgram Span) → IsTotalAt (Keeps StartsAs) program }
{
    coverage_is_decided();
}

/// Each declaration of a program has a typing, or one is the first that breaks E13.
pub fn types_are_judged()
    ensures { (program : PlainProgram Span) → IsTotalAt (Keeps IsTypedAs) program }
{
    typability_is_decided();
}

/// There is a verdict on each source, whatever its bytes are: it is a program, or breaks one of the rules E01 to E16 first, at a
/// place. And there is one alone.
pub fn each_source_has_a_verdict()
    ensures some { (bytes : List ℕ) → IsTotalAt Verdict bytes }
    ensures exactly_one { (bytes : List ℕ) → (made : Result (PlainProgram Span) Refusal) × Verdict bytes made × ((other : Result (PlainProgram Span) Refusal) → Verdict bytes other → other ≡ made) }
{
    sources_are_read();
    names_patterns_and_start_are_judged();
    types_are_judged();
    one_verdict();
}

/// A program that the verdict accepts has a default typing of each of its declarations.
pub fn accepted_programs_are_typed()
    ensures { (bytes : List ℕ) (program : PlainProgram Span) → Verdict bytes (Ok program) → (typed : List (Declaration TypedNode)) × AreDefault (world_of program.declarations) (bound_program program).declarations typed }
{
    typability_is_decided();
}
