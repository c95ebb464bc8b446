// Laws of the definitions: each is the contract of a function that does nothing.
ghost use Rattle.std.specs.Prelude.{◌≡◌, ◌+◌, ℕ, None, Option, length};
ghost use Rattle.rw_scope_rules.specs.declared.binding.Bound.{Bound};
ghost use Rattle.rw_tree.specs.Trees.{Expression};
ghost use Rattle.rw_tree.specs.Declarations.{PlainProgram};
ghost use Rattle.rw_scope_rules.specs.Nodes.{expression_nodes};
ghost use Rattle.rw_meaning.specs.Systems.{binding_of, system_of};
ghost use Rattle.rw_start.specs.Positions.{inner_nodes, strays};
ghost use Rattle.rw_start.specs.Judged.{IsStarted, applications, first_broken_of_two};

/// A program breaks neither E15 nor E16 exactly where both hold. And of the names in an expression that are out of place
/// wherever they stand, as many as there are applications that make its system aren't among its inner nodes: their heads.
pub fn start_law()
    ensures holds { (program : PlainProgram Bound) → first_broken_of_two program ≡ None → IsStarted program }
    ensures none_broken { (program : PlainProgram Bound) → IsStarted program → first_broken_of_two program ≡ None }
    ensures heads { (start : Option ℕ) (e : Expression Bound) →
        length (strays start (expression_nodes e)) ≡ applications (system_of binding_of e) + length (strays start (inner_nodes (system_of binding_of e))) }
{}
