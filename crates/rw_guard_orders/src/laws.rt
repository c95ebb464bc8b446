// Laws of the definitions: each is the contract of a function that does nothing.
ghost use Rattle.std.specs.Prelude.{◌≡◌, ℕ, List, Option, Some, Bool, false};
ghost use Rattle.rw_core_flat.specs.Programs.{FlatFunction, function_at};
ghost use Rattle.rw_core_flat.specs.WellTyped.{Sign, signs_of, DataTypes};
ghost use Rattle.rw_guard_rules.specs.Signals.{CallsEnd};
ghost use Rattle.rw_guard_rules.specs.Rules.{Calls, OnAnyPath, KeepsRules, IsMustSignal, IsWeighed};
ghost use Rattle.rw_guard_orders.specs.Orders.{CalleesAreThere, is_device, AreTyped};

/// Where a program keeps the three rules on recursion, whichever of its functions are the devices, its unguarded calls go to
/// functions of smaller ranks.
pub fn rules_give_ranks()
    ensures { (functions : List FlatFunction) (devices : ℕ → Bool) → KeepsRules functions devices → CallsEnd functions }
{}

/// There is a set of the must-signal functions, and two of them agree at each number.
pub fn one_must_signal()
    ensures some { (functions : List FlatFunction) → (set : ℕ → Bool) × IsMustSignal functions set }
    ensures one { (functions : List FlatFunction) (set other : ℕ → Bool) → IsMustSignal functions set → IsMustSignal functions other → (i : ℕ) → set i ≡ other i }
{}

/// Where unguarded calls go to smaller ranks, there are weights and depths; and where each call is of a function of the program,
/// each function has one weight and one depth.
pub fn one_weighing()
    ensures some { (functions : List FlatFunction) (set : ℕ → Bool) → IsMustSignal functions set → CallsEnd functions → (weights depths : ℕ → ℕ) × IsWeighed functions set weights depths }
    ensures one { (functions : List FlatFunction) (set : ℕ → Bool) → IsMustSignal functions set → CallsEnd functions → CalleesAreThere functions → (weights depths others deeps : ℕ → ℕ) → IsWeighed functions set weights depths → IsWeighed functions set others deeps → (i : ℕ) (f : FlatFunction) → function_at i functions ≡ Some f → (weights i ≡ others i) × (depths i ≡ deeps i) }
{}

/// A typed function calls functions with signatures; one that isn't a device calls no device. Where each function has the
/// signature that it says of itself, each call is of a function of the program.
pub fn typed_calls()
    ensures plain { (types : DataTypes) (functions : List FlatFunction) (signs : ℕ → Option Sign) → AreTyped types functions signs → (i j : ℕ) (s : Sign) → signs i ≡ Some s → Calls functions OnAnyPath i j → (other : Sign) × (signs j ≡ Some other) × (is_device s.kind ≡ false → is_device other.kind ≡ false) }
    ensures present { (types : DataTypes) (functions : List FlatFunction) → AreTyped types functions (signs_of functions) → CalleesAreThere functions }
{}
