// Laws of the definitions: each is the contract of a function that does nothing. A is the annotation at the nodes of a tree.
ghost use Rattle.std.specs.Prelude.{◌≡◌, ◌++◌, ◌∷◌, [], ℕ, List, Option, true, map};
ghost use Rattle.std.specs.List.Sorted.{IsPermutation};
ghost use Rattle.rw_base.specs.declared.place.Span.{Span};
ghost use Rattle.rw_scope_rules.specs.declared.binding.Binding.{Binding};
ghost use Rattle.rw_scope_rules.specs.declared.binding.Bound.{Bound};
ghost use Rattle.rw_scope_rules.specs.Nodes.{Node, group_node, bindings_of, program_nodes};
ghost use Rattle.rw_scope_rules.specs.Bindings.{bound_program};
ghost use Rattle.rw_scope_rules.specs.Groups.{never_placed, cyclic};
ghost use Rattle.rw_tree.specs.Trees.{LocalBinding, LocalBindings};
ghost use Rattle.rw_tree.specs.Declarations.{PlainProgram};
ghost use Rattle.rw_scope_orders.specs.Groups.{Numbered, numbered, bind, mentions, in_order, left_over};

/// Each name of a group that a placed binding mentions is bound by one that is placed earlier; and what is placed and what
/// is left over are the bindings of the group.
pub fn placed_after_what_it_mentions<A>()
    ensures earlier { (binding : A → Option Binding) (group : List (LocalBinding A)) (first : List (Numbered A)) (b : Numbered A) (after : List (Numbered A)) → in_order binding group ≡ first ++ b ∷ after → (k : ℕ) → mentions binding b k ≡ true → bind binding (numbered 0 group) k ≡ true → bind binding first k ≡ true }
    ensures all { (binding : A → Option Binding) (group : List (LocalBinding A)) → IsPermutation (in_order binding group ++ left_over binding group) (numbered 0 group) }
{}

/// What is left over is what rule E12 calls never placed; so nothing is left over of a group of a program that keeps the rule.
pub fn never_placed_are_left_over()
    ensures same { (group : List (LocalBinding Bound)) → map (λ b. b.1) (left_over (λ a. a.bound) group) ≡ never_placed group }
    ensures none { (program : PlainProgram Span) → cyclic program ≡ [] → (first : List (Node Bound)) (group : LocalBindings Bound) (after : List (Node Bound)) → program_nodes (bound_program program) ≡ first ++ group_node group ∷ after → left_over (λ a. a.bound) (bindings_of group) ≡ [] }
{}
