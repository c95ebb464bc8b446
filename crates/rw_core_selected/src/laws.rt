// Laws of the definitions: each is the contract of a function that does nothing.
ghost use Rattle.std.specs.Prelude.{◌≡◌, ℕ, List, [], map, Some};
ghost use Rattle.rw_core.specs.declared.types.DataTy.{DataTy};
ghost use Rattle.rw_core.specs.Values.{Val, vals};
ghost use Rattle.rw_core.specs.Bits.{IsValue, AreValues};
ghost use Rattle.rw_core_layered.specs.Pures.{Calling};
ghost use Rattle.rw_core_layered.specs.Calls.{Function, calls_of};
ghost use Rattle.rw_core_selected.specs.Trees.{Tree, tree_value};
ghost use Rattle.rw_core_layered.specs.Wired.{Signature, signature_of, KeepsTypes};
ghost use Rattle.rw_core_selected.specs.Typed.{TreeTyped, AreTypedBehind};

/// What a well-typed tree gives of values of its variables' types is of its type, where calls keep types; and those of well-typed
/// functions do.
pub fn typed_trees_give_values()
    ensures trees { (types : List DataTy) (signatures : List Signature) (calls : Calling) → KeepsTypes types signatures calls → (g : List ℕ) (t : Tree) (d : ℕ) → TreeTyped types signatures g t d → (env : List Val) → AreValues types g (vals env) → (v : Val) → tree_value calls t env ≡ Some v → IsValue types d v }
    ensures functions { (types : List DataTy) (functions : List (Function Tree)) → AreTypedBehind types [] functions → KeepsTypes types (map signature_of functions) (calls_of tree_value functions) }
{}
