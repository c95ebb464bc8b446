// From the bytes of a text and of a trace to the lines that the bench prints.
ghost use Rattle.std.specs.Prelude.{◌≡◌, ◌⊎◌, ◌≤◌, ◌<◌, ℕ, length, List, Result, Ok, Err, true, false};
ghost use Rattle.rw_base.specs.declared.rule.VRule.TheVariants.{V1};
ghost use Rattle.vhdl_bench.specs.Showing.{IsSimulated, IsUnlessMemory, most_of_text};
ghost use Rattle.vhdl_bench.specs.Steps.{IsTextRead};
ghost use Rattle.vhdl_bench.specs.declared.fail.BenchFail.{BenchFail};
ghost use Rattle.vhdl_bench.specs.declared.fail.BenchFail.TheVariants as fail;

use crate::BenchFail;
use crate::bench::show;
use rw_base::{Text, VRule};
use rw_trace::{TraceFail, to_bits};
use std::alloc::Global;
use vh_tree::Design;
use vh_tree_laws::order_law;
use vhdl_read::{VFail, read};

// How many bytes a text has at most.
const MOST_OF_TEXT: usize = 67_108_864;

// The design that a text spells.
fn read_text(alloc: Global, vhdl: &[u8]) -> Result<Design, BenchFail>
    ensures { IsTextRead vhdl.now result }
{
    if vhdl.len() > MOST_OF_TEXT {
        return Err(BenchFail::VhdlRefused(VRule::V1));
    }
    match read(alloc, vhdl) {
        Ok(design) => Ok(design),
        Err(VFail::Refused(rule)) => Err(BenchFail::VhdlRefused(rule)),
        Err(VFail::OutOfMemory) => Err(BenchFail::OutOfMemory),
    }
}

/// What the bench shows of a VHDL text on a trace. The text is any list of bytes, and so is the trace, whose lines give
/// the values of `inp`. After reset and after each input's edge the value of `outp` is read, and printed as a line of
/// the letters `UX01ZWLH-`, the leftmost bit first. Whatever the order in which processes run, the lines are the same.
///
/// It is refused with the first of the rules V1 to V8 that the text breaks, V1 where it has more than 67,108,864 bytes;
/// else with the first line of the trace that is refused; else with the first change, counted from 1, that isn't quiet
/// after 64 delta cycles (IEEE Std 1076-1993, section 12.6.4, without time). Want of memory may come in place of each.
pub fn simulate(alloc: Global, vhdl: &[u8], trace: &[u8]) -> Result<Text, BenchFail>
    // The answer has its cause.
    ensures answer { (result ≡ Err fail.OutOfMemory) ⊎ IsSimulated vhdl.now trace.now result }
    // What has its cause is the answer, unless memory runs out.
    ensures exactly { (other : Result (List ℕ) BenchFail) → IsSimulated vhdl.now trace.now other → IsUnlessMemory other result }
{
    order_law();
    let design = read_text(alloc, vhdl)?;
    match to_bits(alloc, trace, design.inp) {
        Ok(inputs) => show(alloc, &design, inputs.as_slice()),
        Err(TraceFail::BadLine(line)) => Err(BenchFail::TraceRefused(line)),
        Err(TraceFail::OutOfMemory) => Err(BenchFail::OutOfMemory),
    }
}
