// Laws of the definitions: each is the contract of a function that does nothing. A and B are annotations.
ghost use Rattle.std.specs.Prelude.{◌≡◌, List, Option, map};
ghost use Rattle.std.specs.Option.{option_map};
ghost use Rattle.rw_scope_rules.specs.declared.binding.Binding.{Binding};
ghost use Rattle.rw_tree.specs.Trees.{Expression};
ghost use Rattle.rw_tree.specs.Declarations.{Declaration};
ghost use Rattle.rw_types_rules.specs.Relabelled.{relabelled_declaration, relabelled_expression};
ghost use Rattle.rw_meaning.specs.Systems.{system_of, start_of};
ghost use Rattle.rw_systems_laws.specs.Annotated.{IsRelabelledSystem, relabelled_start};

/// The body of `start` in a tree with other annotations is its body with other annotations; and its system has the same shape,
/// with the same parts but for what stands at their nodes.
pub fn annotations_do_not_matter<A, B>()
    ensures start { (f : A → B) (ds : List (Declaration A)) → start_of (map (relabelled_declaration f) ds) ≡ option_map (relabelled_start f) (start_of ds) }
    ensures system { (f : A → B) (binding : B → Option Binding) (e : Expression A) → IsRelabelledSystem f (system_of (λ a. binding (f a)) e) (system_of binding (relabelled_expression f e)) }
{}
