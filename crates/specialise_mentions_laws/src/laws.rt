// The laws: each is the contract of a function that does nothing.
ghost use Rattle.std.specs.Prelude.{◌≡◌, ℕ, List, Some, map};
ghost use Rattle.std.specs.List.{flat_map};
ghost use Rattle.rw_tree.specs.Views.{itself};
ghost use Rattle.rw_tree.specs.declared.decl.Decl.{Decl};
ghost use Rattle.rw_tree.specs.Declarations.{declaration};
ghost use Rattle.rw_scope_rules.specs.Nodes.{declaration_nodes};
ghost use Rattle.rw_types_solving.specs.Types.{Ty};
ghost use Rattle.rw_types_instances.specs.Instances.{closed_by, in_instance};
ghost use Rattle.rw_types_equations.specs.declared.numbered.Numbered.{Numbered};
ghost use Rattle.rw_types_equations.specs.Numbered.{typed_by};
ghost use Rattle.specialise_rules.specs.Instances.{mentioned_in, from_left};
ghost use Rattle.specialise_rules.specs.Tables.{types_in};
ghost use Rattle.specialise_mentions.specs.Named.{named_in};
ghost use Rattle.specialise_mentions.specs.Typed.{numbers_in};

/// A declaration in an instance names what its numbered tree names where the numbers have their types in the instance.
pub fn mentioned_law()
    ensures { (t : ℕ → Ty) (tree : Decl Numbered) (arguments : List Ty) → mentioned_in (Some (in_instance arguments (declaration (typed_by t) tree)))
        ≡ map (λ m. m.1) (from_left (flat_map (named_in (λ x. closed_by arguments (t x))) (declaration_nodes (declaration itself tree)))) }
{}

/// The types of a declaration and of its nodes in an instance are those of its numbered tree's numbers there.
pub fn types_law()
    ensures { (t : ℕ → Ty) (tree : Decl Numbered) (arguments : List Ty) → types_in (Some (in_instance arguments (declaration (typed_by t) tree)))
        ≡ map (λ x. closed_by arguments (t x)) (numbers_in (declaration itself tree)) }
{}
