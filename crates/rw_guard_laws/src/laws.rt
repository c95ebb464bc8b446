// The law of totality, as the contract of a function that does nothing.
ghost use Rattle.std.specs.Prelude.{◌≡◌, ℕ, suc, List, length, Option};
ghost use Rattle.std.specs.List.{AllByRecursion};
ghost use Rattle.rw_core.specs.Values.{Val};
ghost use Rattle.rw_core.specs.Systems.{System};
ghost use Rattle.rw_core_flat.specs.Programs.{FlatFunction, FlatDenotes};
ghost use Rattle.rw_core_flat.specs.WellTyped.{DataTypes, Sign, Fits};
ghost use Rattle.rw_guard_laws.specs.Guarded.{IsGuarded};

/// A guarded flat program denotes exactly one list of outputs for every list of values of its input type: one more than the inputs,
/// and each of its output type.
pub fn guarded_is_total()
    ensures denotes { (types : DataTypes) (functions : List FlatFunction) (signs : ℕ → Option Sign) (system : System ℕ ℕ) (i o : ℕ) → IsGuarded types functions signs system i o → (inputs : List Val) → AllByRecursion (Fits types i) inputs → (outputs : List Val) × FlatDenotes functions system inputs outputs × (length outputs ≡ suc (length inputs)) × AllByRecursion (Fits types o) outputs }
    ensures one { (functions : List FlatFunction) (system : System ℕ ℕ) (inputs first second : List Val) → FlatDenotes functions system inputs first → FlatDenotes functions system inputs second → first ≡ second }
{}
