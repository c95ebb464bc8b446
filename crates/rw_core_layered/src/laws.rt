// Laws of the definitions: each is the contract of a function that does nothing.
ghost use Rattle.std.specs.Prelude.{◌≡◌, ◌+◌, ℕ, List};
ghost use Rattle.rw_core.specs.Values.{Val};
ghost use Rattle.rw_core.specs.Options.{Grows};
ghost use Rattle.rw_core_layered.specs.Pures.{Calling};
ghost use Rattle.rw_core_layered.specs.Devices.{Device, trace_within};
ghost use Rattle.rw_core_layered.specs.Layered.{LayeredProgram, layered_within, LayeredDenotes};

/// A greater budget never changes what a call of a device or a layered program gives; so outputs within any budget are those that the
/// program denotes.
pub fn budgets_grow_of_devices()
    ensures calls { (pures : Calling) (devices : List Device) (further budget i : ℕ) (arguments inputs : List Val) → Grows (trace_within pures devices budget i arguments inputs) (trace_within pures devices (further + budget) i arguments inputs) }
    ensures outputs { (p : LayeredProgram) (further budget : ℕ) (inputs : List Val) → Grows (layered_within p budget inputs) (layered_within p (further + budget) inputs) }
{}

/// A layered program denotes one list of outputs at most on each list of inputs.
pub fn one_list_of_layered()
    ensures { (p : LayeredProgram) (inputs first second : List Val) → LayeredDenotes p inputs first → LayeredDenotes p inputs second → first ≡ second }
{}
