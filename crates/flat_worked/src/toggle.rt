// A toggle: each fact is the contract of a function that does nothing.
ghost use Rattle.std.specs.Prelude.{◌≡◌, [], ◌∷◌, Some};
ghost use Rattle.rw_core.specs.Systems.{leaf};
ghost use Rattle.rw_core_flat.specs.Programs.{outputs_within};
ghost use Rattle.rw_guard_rules.specs.Signals.{CallsEnd};
ghost use Rattle.rw_core_flat.specs.WellTyped.{DataTypes};
ghost use Rattle.rw_guard_laws.specs.Guarded.{IsGuarded};
ghost use Rattle.flat_worked.specs.Toggle.{fields, functions, signs, loop, on, off};

/// The toggle is guarded, over the two data types that it has.
pub fn guarded()
    ensures { (types : DataTypes) × (types.fields ≡ fields) × IsGuarded types functions signs (leaf 2) 0 0 }
{}

/// It shows `False` after reset, and then the negation of each input.
pub fn outputs()
    ensures { outputs_within functions (leaf 2) 9 (on ∷ on ∷ off ∷ []) ≡ Some (off ∷ off ∷ off ∷ on ∷ []) }
{}

/// A function that calls itself without a signal has no rank.
pub fn loop_has_no_ranks()
    ensures { CallsEnd (loop ∷ []) → ⊥ }
{}
