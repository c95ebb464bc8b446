// Laws of the definitions: each is the contract of a function that does nothing.
ghost use Rattle.std.specs.Prelude.{◌≡◌, ◌↔◌, ℕ, Bool};
ghost use Rattle.rw_scope_rules.specs.declared.binding.Bound.{Bound};
ghost use Rattle.rw_tree.specs.Declarations.{Declaration};
ghost use Rattle.rw_types_solving.specs.declared.term.Sort.{Sort};
ghost use Rattle.rw_types_solving.specs.Types.{Ty, apply};
ghost use Rattle.rw_types_rules.specs.Schemes.{World, scheme_at};
ghost use Rattle.rw_types_rules.specs.TypedTrees.{TypedNode, erased, substituted};
ghost use Rattle.rw_types_rules.specs.WellTyped.{DeclarationAgrees};
ghost use Rattle.rw_types_rules.specs.Typings.{declaration_label, own_kinds, scheme_kinds, IsTyping};
ghost use Rattle.rw_types_numbering.specs.Slots.{declaration_slots};
ghost use Rattle.rw_types_numbering.specs.Fits.{Fits, typed_declaration};

/// The typed tree of an assignment of types to a declaration's numbers is the declaration again without its types.
pub fn erased_law()
    ensures { (t : ℕ → Ty) (world : World) (d : Declaration Bound) → erased (typed_declaration t world d) ≡ d }
{}

/// Each typing of a declaration is the typed tree of an assignment of types to its numbers.
pub fn assignment_law()
    ensures { (sorts : ℕ → Sort) (states : ℕ → Bool) (world : World) (d : Declaration Bound) (typed : Declaration TypedNode) → IsTyping sorts states world d typed → (t : ℕ → Ty) × (typed ≡ typed_declaration t world d) }
{}

/// The typed tree of an assignment is a typing exactly where its types agree and each number has a type that its kind may
/// stand for.
pub fn typing_law()
    ensures { (sorts : ℕ → Sort) (states : ℕ → Bool) (world : World) (t : ℕ → Ty) (d : Declaration Bound) → IsTyping sorts states world d (typed_declaration t world d) ↔ (DeclarationAgrees world (typed_declaration t world d) × Fits sorts states (own_kinds world (typed_declaration t world d)) world t 0 (declaration_slots world d)) }
{}

/// The typed tree of an instance of an assignment is the substituted tree.
pub fn instance_law()
    ensures { (t s r : ℕ → Ty) (world : World) (d : Declaration Bound) → ((x : ℕ) → t x ≡ apply r (s x)) → typed_declaration t world d ≡ substituted r (typed_declaration s world d) }
{}

/// The kinds of the unknown types of a typed tree are those of the declaration's own scheme, whatever the assignment.
pub fn own_law()
    ensures { (t : ℕ → Ty) (world : World) (d : Declaration Bound) → own_kinds world (typed_declaration t world d) ≡ scheme_kinds (scheme_at world (declaration_label d).bound) }
{}
