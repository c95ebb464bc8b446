// Laws of the definitions: each is the contract of a function that does nothing.
ghost use Rattle.std.specs.Prelude.{◌≡◌, ◌++◌, ℕ, List, length, true};
ghost use Rattle.std.specs.List.{AllByRecursion};
ghost use Rattle.rw_base.specs.declared.place.Span.{Span};
ghost use Rattle.rw_scope_rules.specs.declared.binding.Bound.{Bound};
ghost use Rattle.rw_scope_rules.specs.Bindings.{bound_program};
ghost use Rattle.rw_tree.specs.Patterns.{Pattern};
ghost use Rattle.rw_tree.specs.Declarations.{Declaration, PlainProgram};
ghost use Rattle.rw_core.specs.Values.{Val};
ghost use Rattle.rw_types_solving.specs.Types.{Ty};
ghost use Rattle.rw_types_rules.specs.Schemes.{world_of};
ghost use Rattle.rw_types_rules.specs.TypedTrees.{TypedNode, pattern_type, row_types, pattern_locals, row_locals};
ghost use Rattle.rw_types_rules.specs.WellTyped.{PatternAgrees, RowAgrees, DeclarationAgrees};
ghost use Rattle.rw_cover_matrix.specs.Values.{Shape, Shapes, Value, Values, IsValue, AreValues};
ghost use Rattle.rw_cover_matrix.specs.Matching.{matches, row_matches};
ghost use Rattle.rw_cover.specs.Rows.{matrix_pattern, matrix_row};
ghost use Rattle.rw_cover.specs.Coverage.{groups_of};
ghost use Rattle.rw_cover.specs.Correct.{IsCovered};
ghost use Rattle.rw_cover_laws.specs.Shapes.{fields_in, HasShape, HaveShapes};
ghost use Rattle.rw_cover_laws.specs.Columns.{columns_of, untyped, world_in};
ghost use Rattle.rw_cover_laws.specs.Typed.{AreTypingsOf};
ghost use Rattle.rw_meaning.specs.Results.{Thunk, Thunks, how_many};
ghost use Rattle.rw_meaning.specs.Steps.{Stands};
ghost use Rattle.rw_meaning_matching.specs.Standing.{matrix_value, StandsFor, StandForEach, AreFirstValues};
ghost use Rattle.rw_meaning_matching.specs.Exact.{NamesConstructors, IsExactly, IsExactRow, erased_pattern, erased_row};
ghost use Rattle.rw_meaning_matching.specs.Rows.{rows_of, AllNameConstructors, FitExactly, AllTakeEach};
ghost use Rattle.rw_meaning_matching.specs.Matching.{seen_by, seen_by_row, GoesAs, matched, row_matched};

/// What stands for a value of closed data stands for it as a value of the matrix, and back. Two values of closed data are two
/// values of the matrix.
pub fn values_are_embedded()
    ensures embedded { (program : List (Declaration Bound)) (t : Thunk) (v : Val) → Stands program t v → StandsFor program t (matrix_value v) }
    ensures back { (program : List (Declaration Bound)) (t : Thunk) (v : Val) → StandsFor program t (matrix_value v) → Stands program t v }
    ensures one { (v w : Val) → matrix_value v ≡ matrix_value w → v ≡ w }
{}

/// A pattern that fits a shape exactly is taken by what stands for a value of that shape exactly where the value matches it, with
/// what its variables stand for, and is else passed over.
pub fn patterns_are_matched()
    ensures { (program : List (Declaration Bound)) (counts : List ℕ) (p : Pattern Bound) (shape : Shape) (v : Value) (t : Thunk) → IsExactly p shape → IsValue v shape → StandsFor program t v → GoesAs program (matches (matrix_pattern counts p) v) (matched program p t) (seen_by p v) }
{}

/// So are the patterns of a row, against as many arguments, from left to right.
pub fn rows_are_matched()
    ensures { (program : List (Declaration Bound)) (counts : List ℕ) (pats : List (Pattern Bound)) (columns : Shapes) (given : Values) (ts : Thunks) → IsExactRow pats columns → AreFirstValues given columns → length pats ≡ how_many ts → StandForEach program ts given → GoesAs program (row_matches (matrix_row counts pats) given) (row_matched program pats ts) (seen_by_row pats given) }
{}

/// A typed pattern fits the shape of its type exactly, at every closed instance, and so does a row of them the first of some columns,
/// if names of constructors are bound to nothing but constructors, as `bound_program` binds them.
pub fn typed_patterns_are_exact()
    ensures pattern { (decls : List (Declaration Span)) (p : Pattern TypedNode) → PatternAgrees (world_of decls) p → NamesConstructors (erased_pattern p) → (variables unknowns : ℕ → Shape) (shape : Shape) → HasShape (fields_in (world_of decls)) variables unknowns shape (pattern_type p) → IsExactly (erased_pattern p) shape }
    ensures row { (decls : List (Declaration Span)) (pats : List (Pattern TypedNode)) (others : List Ty) → RowAgrees (world_of decls) pats → AllByRecursion NamesConstructors (erased_row pats) → (variables unknowns : ℕ → Shape) (columns : Shapes) → HaveShapes (fields_in (world_of decls)) variables unknowns columns (row_types pats ++ others) → IsExactRow (erased_row pats) columns }
{}

/// Where a value of the shape of its type matches a typed pattern, the variables of the pattern see values of the shapes of their
/// types, in the order of the local names that it binds; so do those of a row.
pub fn variables_see_values()
    ensures pattern { (decls : List (Declaration Span)) (counts : List ℕ) (p : Pattern TypedNode) → PatternAgrees (world_of decls) p → NamesConstructors (erased_pattern p) → (variables unknowns : ℕ → Shape) (shape : Shape) → HasShape (fields_in (world_of decls)) variables unknowns shape (pattern_type p) → (v : Value) → IsValue v shape → matches (matrix_pattern counts (erased_pattern p)) v ≡ true → (seen : Shapes) × HaveShapes (fields_in (world_of decls)) variables unknowns seen (pattern_locals p) × AreValues (seen_by (erased_pattern p) v) seen }
    ensures row { (decls : List (Declaration Span)) (counts : List ℕ) (pats : List (Pattern TypedNode)) (others : List Ty) → RowAgrees (world_of decls) pats → AllByRecursion NamesConstructors (erased_row pats) → (variables unknowns : ℕ → Shape) (columns : Shapes) → HaveShapes (fields_in (world_of decls)) variables unknowns columns (row_types pats ++ others) → (given : Values) → AreFirstValues given columns → row_matches (matrix_row counts (erased_row pats)) given ≡ true → (seen : Shapes) × HaveShapes (fields_in (world_of decls)) variables unknowns seen (row_locals pats) × AreValues (seen_by_row (erased_row pats) given) seen }
{}

/// The rows that have to cover in typed declarations, whose types agree, fit the types of their columns in the tree exactly, at every
/// closed instance of these.
pub fn typed_rows_are_exact()
    ensures { (typed : List (Declaration TypedNode)) → AllByRecursion (DeclarationAgrees (world_in typed)) typed → FitExactly (world_in typed) (rows_of (untyped typed)) (columns_of typed) }
{}

/// So where they cover, as the Ok of `cover` of `rw_cover` says, some row takes all that stands for values of the columns' types, at
/// every closed instance, and no row before it is stuck.
pub fn covered_rows_take_each_value()
    ensures agreeing { (program : List (Declaration Bound)) (typed : List (Declaration TypedNode)) → AllByRecursion (DeclarationAgrees (world_in typed)) typed → AllNameConstructors (rows_of (untyped typed)) → AllByRecursion IsCovered (groups_of (untyped typed)) → AllTakeEach program (world_in typed) (rows_of (untyped typed)) (columns_of typed) }
    ensures typings { (program : List (Declaration Bound)) (source : PlainProgram Span) (typed : List (Declaration TypedNode)) → AreTypingsOf source typed → AllByRecursion IsCovered (groups_of (bound_program source)) → AllTakeEach program (world_of source.declarations) (rows_of (bound_program source)) (columns_of typed) }
{}
