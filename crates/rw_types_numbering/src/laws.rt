// Laws of numbered trees: each is the contract of a function that does nothing.
ghost use Rattle.std.specs.Prelude.{◌≡◌, ◌↔◌, ℕ, Bool};
ghost use Rattle.rw_scope_rules.specs.declared.binding.Bound.{Bound};
ghost use Rattle.rw_tree.specs.Views.{itself};
ghost use Rattle.rw_tree.specs.declared.decl.Decl.{Decl};
ghost use Rattle.rw_tree.specs.Declarations.{Declaration, declaration};
ghost use Rattle.rw_types_solving.specs.declared.term.Sort.{Sort};
ghost use Rattle.rw_types_solving.specs.Types.{Ty, apply};
ghost use Rattle.rw_types_rules.specs.Relabelled.{relabelled_declaration};
ghost use Rattle.rw_types_rules.specs.Schemes.{World};
ghost use Rattle.rw_types_rules.specs.TypedTrees.{TypedNode, substituted};
ghost use Rattle.rw_types_rules.specs.WellTyped.{DeclarationAgrees};
ghost use Rattle.rw_types_rules.specs.Typings.{own_kinds, IsTyping};
ghost use Rattle.rw_types_equations.specs.declared.numbered.Numbered.{Numbered};
ghost use Rattle.rw_types_equations.specs.Numbered.{typed_by};
ghost use Rattle.rw_types_numbering.specs.Slots.{declaration_slots};
ghost use Rattle.rw_types_numbering.specs.Fits.{Fits};
ghost use Rattle.rw_types_numbering.specs.Numbering.{numbered_declaration};

/// A numbered tree is the tree again without its numbers.
pub fn erased_law()
    ensures { (world : World) (n : ℕ) (d : Declaration Bound) → relabelled_declaration (λ a. a.node) (numbered_declaration world n d) ≡ d }
{}

/// Each typing of a declaration is an assignment of types to its numbers.
pub fn assignment_law()
    ensures { (sorts : ℕ → Sort) (states : ℕ → Bool) (world : World) (d : Declaration Bound) (typed : Declaration TypedNode) → IsTyping sorts states world d typed → (t : ℕ → Ty) × (typed ≡ relabelled_declaration (typed_by t) (numbered_declaration world 0 d)) }
{}

/// An assignment of types to the numbers of a declaration is a typing exactly where its types agree and each number has a type
/// that its kind may stand for.
pub fn typing_law()
    ensures { (sorts : ℕ → Sort) (states : ℕ → Bool) (world : World) (t : ℕ → Ty) (d : Declaration Bound) → IsTyping sorts states world d (relabelled_declaration (typed_by t) (numbered_declaration world 0 d)) ↔ (DeclarationAgrees world (relabelled_declaration (typed_by t) (numbered_declaration world 0 d)) × Fits sorts states (own_kinds world (relabelled_declaration (typed_by t) (numbered_declaration world 0 d))) world t 0 (declaration_slots world d)) }
{}

/// An instance of an assignment gives the substituted tree.
pub fn instance_law()
    ensures { (t s r : ℕ → Ty) (e : Declaration Numbered) → ((x : ℕ) → t x ≡ apply r (s x)) → relabelled_declaration (typed_by t) e ≡ substituted r (relabelled_declaration (typed_by s) e) }
{}

/// The typed tree that is read off a numbered tree of the code is that of its plain form.
pub fn seen_law()
    ensures { (t : ℕ → Ty) (tree : Decl Numbered) → declaration (typed_by t) tree ≡ relabelled_declaration (typed_by t) (declaration itself tree) }
{}
