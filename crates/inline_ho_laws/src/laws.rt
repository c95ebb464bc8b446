// The laws of flattening: each is the contract of a function that does nothing.
ghost use Rattle.std.specs.Prelude.{◌≡◌, ◌↔◌, ℕ, List, [], ◌∷◌, Option, Some, map};
ghost use Rattle.std.specs.List.{AllByRecursion};
ghost use Rattle.rw_scope_rules.specs.declared.binding.Binding.TheVariants.{Declared};
ghost use Rattle.rw_scope_rules.specs.declared.binding.Bound.{Bound};
ghost use Rattle.rw_tree.specs.Trees.{Expression, variable, Alternatives};
ghost use Rattle.rw_tree.specs.Declarations.{Declaration};
ghost use Rattle.rw_core.specs.Values.{Val};
ghost use Rattle.rw_core.specs.Systems.{System};
ghost use Rattle.rw_core.specs.Traces.{End, waits, finished, Trace};
ghost use Rattle.rw_meaning.specs.Results.{Thunk, kept, kept_call, Thunks};
ghost use Rattle.rw_meaning.specs.Steps.{Stands, AllStand, EachStands, Acts, Traces};
ghost use Rattle.rw_meaning.specs.Outputs.{Denotes};
ghost use Rattle.rw_types_solving.specs.Types.{Ty};
ghost use Rattle.rw_types_rules.specs.TypedTrees.{TypedNode, erased};
ghost use Rattle.rw_core_flat.specs.Terms.{FlatTerm};
ghost use Rattle.rw_core_flat.specs.WellTyped.{DataTypes, Fits, Sign};
ghost use Rattle.rw_guard_laws.specs.Guarded.{IsGuarded};
ghost use Rattle.rw_core_flat.specs.Meaning.{valued, acting, tracing, a_value, done, traced};
ghost use Rattle.rw_core_flat.specs.Programs.{FlatFunction, call_within, FlatDenotes};
ghost use Rattle.inline_ho_rules.specs.Meants.{Meants};
ghost use Rattle.inline_ho_rules.specs.Flattening.{IsFlat};
ghost use Rattle.inline_ho_rules.specs.FlatPrograms.{IsOf, AreFlattened, IsFlatProgram};
ghost use Rattle.inline_ho_rules.specs.TypedFlattening.{IsTypedFlat};
ghost use Rattle.inline_ho_rules.specs.TypedPrograms.{declared_place, named_origins, numbers_of, IsFlatOf};
ghost use Rattle.specialise_rules.specs.Instances.{Instance, start_from};
ghost use Rattle.rw_types_rules.specs.Schemes.{World};
ghost use Rattle.inline_ho_rules.specs.Untyped.{bare_expression, bare_clauses, bare_meants, clauses_declared};

/// What a flat program for a source denotes, the source denotes.
pub fn flat_programs_mean_their_source()
    ensures { (program : List (Declaration Bound)) (origins : List (Option ℕ)) (functions : List FlatFunction) (system : System ℕ ℕ) → IsFlatProgram program origins functions system → (inputs outputs : List Val) → FlatDenotes functions system inputs outputs → Denotes program inputs outputs }
{}

/// And so does each flat function of a declaration: the name of the declaration, in any environment and applied to arguments that stand
/// for the values given, stands for the value that a call gives; as a state action it does, and as a device it shows and ends, what a
/// call does.
pub fn flat_functions_mean_their_declarations()
    ensures values { (program : List (Declaration Bound)) (origins : List (Option ℕ)) (functions : List FlatFunction) → AreFlattened program origins functions → (budget i n : ℕ) → IsOf origins i n → (around : Thunks) (a : Bound) (x : List ℕ) → a.bound ≡ Some (Declared n) → (vs : List Val) (ts : Thunks) → AllStand program ts vs → (v : Val) → call_within functions budget valued i vs ≡ Some (a_value v) → Stands program (kept_call (kept around (variable a x)) ts) v }
    ensures actions { (program : List (Declaration Bound)) (origins : List (Option ℕ)) (functions : List FlatFunction) → AreFlattened program origins functions → (budget i n : ℕ) → IsOf origins i n → (around : Thunks) (a : Bound) (x : List ℕ) → a.bound ≡ Some (Declared n) → (vs : List Val) (ts : Thunks) → AllStand program ts vs → (states : List Val) (v : Val) (after : List Val) → call_within functions budget (acting states) i vs ≡ Some (done v after) → (before : Thunks) → AllStand program before states → (t : Thunk) × (left : Thunks) × Acts program (kept_call (kept around (variable a x)) ts) before t left × Stands program t v × AllStand program left after }
    ensures devices { (program : List (Declaration Bound)) (origins : List (Option ℕ)) (functions : List FlatFunction) → AreFlattened program origins functions → (budget i n : ℕ) → IsOf origins i n → (around : Thunks) (a : Bound) (x : List ℕ) → a.bound ≡ Some (Declared n) → (vs : List Val) (ts : Thunks) → AllStand program ts vs → (states inputs outputs : List Val) (end : End Val (List Val)) → call_within functions budget (tracing states inputs) i vs ≡ Some (traced outputs end) → (before : Thunks) → AllStand program before states → (t : Trace Thunk Thunks) × Traces program (kept_call (kept around (variable a x)) ts) before inputs t × EachStands program t.outputs outputs × (end ≡ waits → t.end ≡ waits) × ((v : Val) (after left : List Val) → end ≡ finished v after left → (u : Thunk) × (rest : Thunks) × (t.end ≡ finished u rest left) × Stands program u v × AllStand program rest after) }
{}

/// With closed types at its nodes, an expression flattens to one term at most.
pub fn typed_expressions_flatten_once()
    ensures { (program : List (Declaration Bound)) (function_of : ℕ → List Ty → Option ℕ) (clauses_of : ℕ → List Ty → Option (Alternatives TypedNode)) (number_of : Ty → Option ℕ) (next : ℕ) (names arguments : Meants TypedNode) (e : Expression TypedNode) (first second : FlatTerm) → IsTypedFlat program function_of clauses_of number_of next names e arguments first → IsTypedFlat program function_of clauses_of number_of next names e arguments second → first ≡ second }
{}

/// And to that term it flattens without its types too, where the flat functions are of the declarations of their instances, and the
/// clauses of an instance are those of its declaration.
pub fn typed_flattening_is_flattening()
    ensures { (program : List (Declaration Bound)) (function_of : ℕ → List Ty → Option ℕ) (clauses_of : ℕ → List Ty → Option (Alternatives TypedNode)) (number_of : Ty → Option ℕ) (origins : List (Option ℕ)) → ((n i : ℕ) (arguments : List Ty) → function_of n arguments ≡ Some i → IsOf origins i n) → ((n : ℕ) (arguments : List Ty) (cs : Alternatives TypedNode) → clauses_of n arguments ≡ Some cs → clauses_declared program n ≡ Some (bare_clauses cs)) → (next : ℕ) (names arguments : Meants TypedNode) (e : Expression TypedNode) (term : FlatTerm) → IsTypedFlat program function_of clauses_of number_of next names e arguments term → IsFlat program (IsOf origins) next (bare_meants names) (bare_expression e) (bare_meants arguments) term }
{}

/// The flat program of a typed program, which begins with the instance of `start`, is one for the program without its types; so what it
/// denotes, the program denotes.
pub fn flat_programs_of_typed_ones_mean_them()
    ensures is_one { (world : World) (typed : List (Declaration TypedNode)) (start : Instance) (others : List Instance) (table : List Ty) (functions : List FlatFunction) (system : System ℕ ℕ) → start_from 0 typed ≡ start ∷ [] → (flat : IsFlatOf world typed (start ∷ others) table functions system) → IsFlatProgram (map erased typed) (numbers_of (named_origins world typed (start ∷ others) table flat.start (declared_place flat.declared))) functions system }
    ensures denoted { (world : World) (typed : List (Declaration TypedNode)) (start : Instance) (others : List Instance) (table : List Ty) (functions : List FlatFunction) (system : System ℕ ℕ) → start_from 0 typed ≡ start ∷ [] → IsFlatOf world typed (start ∷ others) table functions system → (inputs outputs : List Val) → FlatDenotes functions system inputs outputs → Denotes (map erased typed) inputs outputs }
{}

/// A guarded flat program and its source denote exactly the same, on values of the input type.
pub fn guarded_programs_denote_the_same()
    ensures { (program : List (Declaration Bound)) (origins : List (Option ℕ)) (functions : List FlatFunction) (system : System ℕ ℕ) → IsFlatProgram program origins functions system → (types : DataTypes) (signs : ℕ → Option Sign) (i o : ℕ) → IsGuarded types functions signs system i o → (inputs : List Val) → AllByRecursion (Fits types i) inputs → (outputs : List Val) → Denotes program inputs outputs ↔ FlatDenotes functions system inputs outputs }
{}

/// The instances of a typed program have one table of data types, one list of flat functions and one system at most.
pub fn instances_have_one_flat_program()
    ensures { (world : World) (typed : List (Declaration TypedNode)) (instances : List Instance) (first second : List Ty) (functions others : List FlatFunction) (system another : System ℕ ℕ) → IsFlatOf world typed instances first functions system → IsFlatOf world typed instances second others another → (first ≡ second) × (functions ≡ others) × (system ≡ another) }
{}
