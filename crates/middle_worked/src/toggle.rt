// A toggle that is fed back, in each language: each fact is the contract of a function that does nothing.
ghost use Rattle.std.specs.Prelude.{◌≡◌, Some};
ghost use Rattle.rw_core_layered.specs.Layered.{layered_within};
ghost use Rattle.rw_core_layered.specs.Pures.{value};
ghost use Rattle.rw_core_layered.specs.Machines.{MachineDenotes};
ghost use Rattle.rw_core_selected.specs.Trees.{SelectedDenotes};
ghost use Rattle.rw_core_selected.specs.Typed.{IsPlan};
ghost use Rattle.rw_core_selected.specs.Plans.{plan_outputs};
ghost use Rattle.middle_worked.specs.Toggle.{layered, machine, selected, plan, inputs, outputs};

/// As a layered program it shows these outputs on these inputs.
pub fn shown_as_layered()
    ensures { layered_within layered 9 inputs ≡ Some outputs }
{}

/// As a machine of pure functions it shows the same.
pub fn shown_as_machine()
    ensures { MachineDenotes value machine inputs outputs }
{}

/// As a machine of trees of decisions it shows the same.
pub fn shown_as_trees()
    ensures { SelectedDenotes selected inputs outputs }
{}

/// As a plan it shows the same.
pub fn shown_as_plan()
    ensures { plan_outputs plan inputs ≡ Some outputs }
{}

/// The plan is well typed.
pub fn typed_trees()
    ensures { IsPlan plan }
{}
