//! Flat buffers stand for a state of a design: what is done to the buffers is done to the state.
//!
//! It holds laws alone: no call here does anything. `vhdl_cycle` stands on them. Begin with `specs/Standing.antt` of
//! `vhdl_cycle_flat`, which says for which state buffers stand, and then `specs/Changes.antt`. `agreeing.rt` says that two worlds
//! that agree give one meaning, on which the laws of delta cycles stand.
#![tactic(auto)]

ghost use Rattle.vhdl_cycle_flat.specs.Standing.{DeltaLaw, QuietLaw};
ghost use Rattle.vh_tree.specs.declared.design.Design.{Design};
ghost use Rattle.vhdl_cycle_laws.specs.Changes.{StartLaw, HasPorts, GivenLaw, ReadLaw, CyclesLaw, SettlingLaw};

mod agreeing;

pub use agreeing::{agreement_law, frames_law};
use vh_tree_laws::{order_law, settling_law};

/// A delta cycle over flat buffers is the design's, in the order of the text (IEEE Std 1076-1993, section 12.6.4,
/// without time).
pub fn delta_law()
    ensures { DeltaLaw }
{
    frames_law();
}

/// Buffers are quiet exactly where the state is for which they stand.
pub fn quiet_law()
    ensures { QuietLaw }
{}

/// Any number of delta cycles over buffers are the design's, and settling over buffers is settling, whatever the orders
/// in which its processes run.
pub fn cycles_law()
    ensures cycles { CyclesLaw }
    ensures settles { SettlingLaw }
{
    delta_law();
    order_law();
    settling_law();
}

/// Buffers that are all 'U', with nothing pending, stand for the ports and signals before the start. Each port has its
/// place. A value written to the place of a port, with its flag set, is pending there; and the bits in the place of a
/// port or signal are its value.
pub fn port_law()
    ensures starts { StartLaw }
    ensures places { (d : Design) → HasPorts d }
    ensures given { GivenLaw }
    ensures read { ReadLaw }
{}
