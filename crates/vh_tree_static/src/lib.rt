//! The static rules of a design: which of V4 to V8 is the first that it breaks, if it breaks any.
//!
//! It leaves reading a text, and so V1 to V3, to the crates that read, and what a design means to `vh_tree`.
//! Who has read a design asks it before simulating. Begin with the definition `first_broken` of `vh_tree`, then with
//! `names.rt` (V4), `fit.rt` (V5), `drivers.rt` (V6), `order.rt` (V7) and `ports.rt` (V8).
#![tactic(auto)]

ghost use Rattle.std.specs.Prelude.{◌≡◌, Some, Ok, Err, IsOk, IsErrOf};
ghost use Rattle.rw_base.specs.declared.rule.VRule.{VRule};
ghost use Rattle.rw_base.specs.Answers.{IsUnlessMemory};
ghost use Rattle.vh_tree.specs.StaticRules.{IsStatic, first_broken};
ghost use Rattle.rw_base.specs.declared.fail.Failure.TheVariants as fail;

mod distinct;
mod drivers;
mod fit;
mod lookup;
mod names;
mod order;
mod ports;
mod table;
mod vars;
mod widths;

pub use rw_base::VFail;
use rw_base::VRule;
use std::alloc::Global;
use vh_tree::Design;

// The rules in order.
fn judged(alloc: Global, design: &Design) -> Result<(), VFail>
    ensures ok { IsOk result → IsStatic design.now }
    ensures refused { (rule : VRule) → IsErrOf result (fail.Refused rule) → first_broken design.now ≡ Some rule }
{
    if !names::names_keep(alloc, design)? {
        return Err(VFail::Refused(VRule::V4));
    }
    if !fit::widths_keep(alloc, design)? {
        return Err(VFail::Refused(VRule::V5));
    }
    if !drivers::drivers_keep(alloc, design)? {
        return Err(VFail::Refused(VRule::V6));
    }
    if !order::order_keeps(alloc, design)? {
        return Err(VFail::Refused(VRule::V7));
    }
    if !ports::ports_keep(design) {
        return Err(VFail::Refused(VRule::V8));
    }
    Ok(())
}

/// Whether the static rules of the VHDL subset hold of a design: names (V4), widths (V5), drivers (V6), functions
/// before their use (V7) and the widths of ports (V8). It is refused exactly where one of them is broken, with the first
/// that is, unless memory runs out (IEEE Std 1076-1993, sections 2.1, 4.3.1.2, 8.4 and 10.3).
pub fn check_static(alloc: Global, design: &Design) -> Result<(), VFail>
    // What is accepted keeps the rules, and what is refused breaks this one first.
    ensures ok { IsOk result → IsStatic design.now }
    ensures refused { (rule : VRule) → IsErrOf result (fail.Refused rule) → first_broken design.now ≡ Some rule }
    // And the other way.
    ensures kept { IsStatic design.now → IsUnlessMemory (Ok tt) result }
    ensures broken { (rule : VRule) → first_broken design.now ≡ Some rule → IsUnlessMemory (Err (fail.Refused rule)) result }
{
    judged(alloc, design)
}
