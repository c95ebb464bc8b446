// Laws of the definitions: each is the contract of a function that does nothing.
ghost use Rattle.std.specs.Prelude.{◌≡◌, ◌+◌, ◌↔◌, ℕ, List};
ghost use Rattle.rw_core.specs.Values.{Val};
ghost use Rattle.rw_core.specs.Options.{Grows};
ghost use Rattle.rw_core.specs.Systems.{System};
ghost use Rattle.rw_core_flat.specs.Meaning.{Mode};
ghost use Rattle.rw_core.specs.declared.types.DataTy.{DataTy};
ghost use Rattle.rw_core.specs.Bits.{IsValue};
ghost use Rattle.rw_core_flat.specs.WellTyped.{DataTypes, AreInTable, Fits};
ghost use Rattle.rw_core_flat.specs.Programs.{FlatFunction, call_within, outputs_within, FlatDenotes};

/// A greater budget never changes what a call or a system gives; so outputs within any budget are those that the program denotes.
pub fn budgets_grow()
    ensures calls { (functions : List FlatFunction) (further budget : ℕ) (mode : Mode) (i : ℕ) (arguments : List Val) → Grows (call_within functions budget mode i arguments) (call_within functions (further + budget) mode i arguments) }
    ensures outputs { (functions : List FlatFunction) (system : System ℕ ℕ) (further budget : ℕ) (inputs : List Val) → Grows (outputs_within functions system budget inputs) (outputs_within functions system (further + budget) inputs) }
{}

/// A flat program denotes one list of outputs at most on each list of inputs.
pub fn one_list_is_shown()
    ensures { (functions : List FlatFunction) (system : System ℕ ℕ) (inputs first second : List Val) → FlatDenotes functions system inputs first → FlatDenotes functions system inputs second → first ≡ second }
{}

/// Where the data types are those of a table, the values of a type are those that the table has, as bits stand for them.
pub fn values_of_types()
    ensures { (types : DataTypes) (table : List DataTy) → AreInTable types table → (d : ℕ) (v : Val) → Fits types d v ↔ IsValue table d v }
{}
