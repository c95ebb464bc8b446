// The laws: each is the contract of a function that does nothing.
ghost use Rattle.std.specs.Prelude.{◌≡◌, ℕ, Bool, false, List, length};
ghost use Rattle.rw_base.specs.declared.place.Span.{Span};
ghost use Rattle.rw_scope_rules.specs.declared.binding.Bound.{Bound};
ghost use Rattle.rw_tree.specs.Declarations.{Declaration};
ghost use Rattle.rw_types_solving.specs.declared.term.Sort.{Sort};
ghost use Rattle.rw_types_solving.specs.Types.{Ty, apply, occurs};
ghost use Rattle.rw_types_solving.specs.Sorts.{Heads, HasSort};
ghost use Rattle.rw_types_rules.specs.Schemes.{World, world_of, scheme_at};
ghost use Rattle.rw_types_rules.specs.TypedTrees.{TypedNode, substituted};
ghost use Rattle.rw_types_rules.specs.WellTyped.{DeclarationAgrees};
ghost use Rattle.rw_types_rules.specs.Typings.{declaration_label, own_kinds, scheme_kinds, IsTyping, IsDefault};
ghost use Rattle.rw_types_instances.specs.Instances.{IsKnown, IsClosed, EachIs, closed_by, in_instance, HasKnownSchemes, InstanceAgrees};
ghost use Rattle.rw_types_laws.specs.Substitutions.{Keeps};

/// Where the types of a declaration agree, they do so under each substitution of their variables.
pub fn substitution_law()
    ensures { (s : ℕ → Ty) (world : World) (d : Declaration TypedNode) → DeclarationAgrees world d → DeclarationAgrees world (substituted s d) }
{}

/// A typing is one under each substitution that keeps sorts and the bound on types.
pub fn typing_law()
    ensures { (v : ℕ → Sort) (y : ℕ → Bool) (w : ℕ → Sort) (z : ℕ → Bool) (s : ℕ → Ty) (world : World) (d : Declaration Bound) (typed : Declaration TypedNode) → Keeps (scheme_kinds (scheme_at world (declaration_label d).bound)) world v y w z s → IsTyping v y world d typed → IsTyping w z world d (substituted s typed) }
{}

/// A type without variables is closed in an instance at closed arguments. A closed type stays in each instance and under each
/// substitution.
pub fn closed_by_law()
    ensures closed { (arguments : List Ty) → EachIs IsClosed arguments → (type : Ty) → ((x : ℕ) → occurs x type ≡ false) → IsClosed (closed_by arguments type) }
    ensures known_stays { (arguments : List Ty) (type : Ty) → IsKnown type → closed_by arguments type ≡ type }
    ensures closed_is_known { (type : Ty) → IsClosed type → IsKnown type }
    ensures closed_stays { (s : ℕ → Ty) (type : Ty) → IsClosed type → apply s type ≡ type }
{}

/// No unknown type stands in the types of a program's names.
pub fn schemes_law()
    ensures { (decls : List (Declaration Span)) → HasKnownSchemes (world_of decls) }
{}

/// Where the types of a declaration agree, they do so in each instance: with one argument for each variable of its signature, its
/// type is the signature's at these arguments.
pub fn instance_law()
    ensures { (arguments : List Ty) (world : World) → HasKnownSchemes world → (d : Declaration TypedNode) → length arguments ≡ length (own_kinds world d) → DeclarationAgrees world d → InstanceAgrees world arguments (in_instance arguments d) }
{}

/// A default typing is a typing without variables: one whatever the sorts of variables are, which each substitution leaves. A type
/// of one sort whatever the sorts of variables are has none.
pub fn default_typing_law()
    ensures typing { (world : World) (d : Declaration Bound) (typed : Declaration TypedNode) → IsDefault world d typed → (sorts : ℕ → Sort) (states : ℕ → Bool) → IsTyping sorts states world d typed }
    ensures stays { (s : ℕ → Ty) (world : World) (d : Declaration Bound) (typed : Declaration TypedNode) → IsDefault world d typed → substituted s typed ≡ typed }
    ensures no_variable { (heads : Heads) (sort : Sort) (type : Ty) → ((sorts : ℕ → Sort) → HasSort sorts heads sort type) → (x : ℕ) → occurs x type ≡ false }
{}

/// A declaration has one default typing at most.
pub fn one_default_law()
    ensures { (world : World) (d : Declaration Bound) (one other : Declaration TypedNode) → IsDefault world d one → IsDefault world d other → one ≡ other }
{}
