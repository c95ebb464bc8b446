// Laws on typability: each is the contract of a function that does nothing, for callers to cite.
ghost use Rattle.std.specs.Prelude.{◌⊎◌};
ghost use Rattle.rw_scope_rules.specs.declared.binding.Bound.{Bound};
ghost use Rattle.rw_tree.specs.Declarations.{Declaration};
ghost use Rattle.rw_types_rules.specs.Schemes.{World};
ghost use Rattle.rw_types_rules.specs.TypedTrees.{TypedNode};
ghost use Rattle.rw_types_rules.specs.Typings.{IsTypable, IsDefault};

/// Of each declaration in each world it is decided whether it has a typing. One that has a typing has a default typing.
pub fn typability_is_decided()
    ensures typable { (world : World) (d : Declaration Bound) → IsTypable world d ⊎ (IsTypable world d → ⊥) }
    ensures default { (world : World) (d : Declaration Bound) → ((typed : Declaration TypedNode) × IsDefault world d typed) ⊎ (IsTypable world d → ⊥) }
{}
