// Laws of the definitions: each is the contract of a function that does nothing.
ghost use Rattle.std.specs.Prelude.{◌≡◌, ℕ, List, []};
ghost use Rattle.std.specs.List.{AllByRecursion};
ghost use Rattle.rw_base.specs.declared.place.Place.{Place};
ghost use Rattle.rw_base.specs.declared.place.Span.{Span};
ghost use Rattle.rw_tree.specs.Declarations.{Declaration, PlainProgram};
ghost use Rattle.rw_scope_rules.specs.Bindings.{bound_program};
ghost use Rattle.rw_scope_rules.specs.Kinds.{recursive_or_empty};
ghost use Rattle.rw_scope_rules.specs.Verdict.{IsScoped};
ghost use Rattle.rw_types_solving.specs.Types.{Ty};
ghost use Rattle.rw_types_rules.specs.Schemes.{World, world_of};
ghost use Rattle.rw_types_rules.specs.TypedTrees.{TypedNode};
ghost use Rattle.rw_types_rules.specs.WellTyped.{DeclarationAgrees};
ghost use Rattle.rw_cover_matrix.specs.Values.{Shape};
ghost use Rattle.rw_cover.specs.Coverage.{AreUncovered, groups_of};
ghost use Rattle.rw_cover.specs.Correct.{AllHaveTypes, IsCovered};
ghost use Rattle.rw_cover_laws.specs.Shapes.{HasShape, fields_in};
ghost use Rattle.rw_cover_laws.specs.Columns.{AllMatch, HaveInstances, StandAt, columns_of, untyped, world_in};
ghost use Rattle.rw_cover_laws.specs.Typed.{AreTypingsOf, AreTypingsOrDefaultsOf, IsTypableProgram};

use rw_cover::places_law;

/// The rows that have to cover in typed declarations, whose types agree, stand at the types of their columns in the tree, at
/// every closed instance of these.
pub fn typed_rows_law()
    ensures { (typed : List (Declaration TypedNode)) → AllByRecursion (DeclarationAgrees (world_in typed)) typed → StandAt (world_in typed) (groups_of (untyped typed)) (columns_of typed) }
{}

/// So where they cover, as the Ok of `cover` of `rw_cover` says, all values of the columns' types match a row, at every closed
/// instance.
pub fn values_law()
    ensures { (typed : List (Declaration TypedNode)) → AllByRecursion (DeclarationAgrees (world_in typed)) typed → AllByRecursion IsCovered (groups_of (untyped typed)) → AllMatch (world_in typed) (groups_of (untyped typed)) (columns_of typed) }
{}

/// And where the columns' types have closed instances, the rows of each group may stand at some types, so `cover` has one
/// right answer.
pub fn instances_law()
    ensures { (typed : List (Declaration TypedNode)) → AllByRecursion (DeclarationAgrees (world_in typed)) typed → HaveInstances (world_in typed) (columns_of typed) → AllHaveTypes (groups_of (untyped typed)) }
{}

/// Each type has a shape at each closed instance, where data types are not recursive (rule E11). It has no other one.
pub fn shape_law()
    ensures some { (program : PlainProgram Span) → recursive_or_empty program ≡ [] → (variables unknowns : ℕ → Shape) (type : Ty) → (shape : Shape) × HasShape (fields_in (world_of program.declarations)) variables unknowns shape type }
    ensures one { (world : World) (variables unknowns : ℕ → Shape) (type : Ty) (shape other : Shape) → HasShape (fields_in world) variables unknowns shape type → HasShape (fields_in world) variables unknowns other type → shape ≡ other }
{}

/// So the rows of each group of a program that keeps E11 may stand at some types, if each declaration has a typing.
pub fn typable_law()
    ensures typable { (program : PlainProgram Span) → recursive_or_empty program ≡ [] → IsTypableProgram program → AllHaveTypes (groups_of (bound_program program)) }
    ensures typed { (program : PlainProgram Span) (typed : List (Declaration TypedNode)) → IsScoped program → AreTypingsOrDefaultsOf program typed → AllHaveTypes (groups_of (bound_program program)) }
{}

/// So rule E14 is exact for such a program: its groups are uncovered at one list of places at most, and that is what `cover` of
/// `rw_cover` answers by.
pub fn exact_law()
    ensures typable { (program : PlainProgram Span) → recursive_or_empty program ≡ [] → IsTypableProgram program → (places others : List Place) → AreUncovered (groups_of (bound_program program)) places → AreUncovered (groups_of (bound_program program)) others → places ≡ others }
    ensures typed { (program : PlainProgram Span) (typed : List (Declaration TypedNode)) → IsScoped program → AreTypingsOrDefaultsOf program typed → (places others : List Place) → AreUncovered (groups_of (bound_program program)) places → AreUncovered (groups_of (bound_program program)) others → places ≡ others }
{
    places_law();
}

/// And where the groups of a program cover, all values of the columns' types in typings of its declarations match a row, at every
/// closed instance.
pub fn typings_law()
    ensures { (program : PlainProgram Span) (typed : List (Declaration TypedNode)) → AreTypingsOf program typed → AllByRecursion IsCovered (groups_of (bound_program program)) → AllMatch (world_of program.declarations) (groups_of (bound_program program)) (columns_of typed) }
{}
