// Which outputs small devices have. Each is the contract of a function that does nothing.
ghost use Rattle.std.specs.Prelude.{◌≡◌, ◌∷◌, [], Some};
ghost use Rattle.rw_meaning.specs.Outputs.{outputs_within};
ghost use Rattle.source_worked.specs.Devices.{bits, switch, short, two_states, falls_through, two_registers};

/// The switch of two states is off after reset, and each True turns it over: on the inputs True, False, True it shows False,
/// True, True, False.
pub fn a_switch()
    ensures { outputs_within switch 20 (bits (1 ∷ 0 ∷ 1 ∷ [])) ≡ Some (bits (0 ∷ 1 ∷ 1 ∷ 0 ∷ [])) }
{}

/// A device that has returned keeps its last output, whatever comes.
pub fn what_returns_keeps_its_last_output()
    ensures { outputs_within short 20 (bits (1 ∷ 1 ∷ 0 ∷ 1 ∷ [])) ≡ Some (bits (0 ∷ 1 ∷ 1 ∷ 1 ∷ 1 ∷ [])) }
{}

/// The state of the inner `extrude` is the first one that `lift get` reaches; the two are exchanged at each edge.
pub fn two_states_are_exchanged()
    ensures { outputs_within two_states 30 (bits (0 ∷ 0 ∷ [])) ≡ Some (bits (0 ∷ 1 ∷ 0 ∷ [])) }
{}

/// Where the guard of a row fails, the next row is tried.
pub fn a_guard_falls_through()
    ensures { outputs_within falls_through 20 (bits (1 ∷ 0 ∷ [])) ≡ Some (bits (1 ∷ 0 ∷ 1 ∷ [])) }
{}

/// Two registers side by side, the output of the first fed back into the second, show each input two edges later.
pub fn two_registers_in_a_row()
    ensures { outputs_within two_registers 20 (bits (1 ∷ 0 ∷ 1 ∷ [])) ≡ Some (bits (0 ∷ 0 ∷ 1 ∷ 0 ∷ [])) }
{}
