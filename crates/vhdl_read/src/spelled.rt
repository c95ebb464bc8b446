// A text from its bytes to the design that it spells.
ghost use Rattle.std.specs.Prelude.{◌≡◌, true, Ok, Err};
ghost use Rattle.rw_base.specs.declared.rule.VRule.TheVariants as v;
ghost use Rattle.vh_tree.specs.declared.design.Design.{Design};
ghost use Rattle.vh_tree.specs.Text as text;
ghost use Rattle.vh_tree.specs.Spelling.{IsSpelled, BreaksBytes, BreaksTokens, BreaksGrammar};
ghost use Rattle.rw_base.specs.Answers.{IsUnlessMemory};
ghost use Rattle.vhdl_read.specs.Reading.{IsAnswer};
ghost use Rattle.rw_base.specs.declared.fail.Failure.TheVariants as fail;

use crate::class::is_allowed;
use crate::design::whole_design;
use crate::scan::scan;
use rw_base::{Unread, VFail, VRule};
use std::alloc::Global;
use vh_tree::Design;
use vh_tree_reading::{designs_are_read, one_design_for_a_text, tokens_are_scanned};

// V1 is kept: every byte may stand in a text.
fn all_allowed(bytes: &[u8]) -> bool
    ensures { result ≡ text.all_allowed bytes.now }
{
    bytes.iter().all(|b| is_allowed(*b))
}

// A text whose bytes are allowed.
#[tactic(auto, using(crate::proofs::Answering::tokens_refused, crate::proofs::Answering::grammar_refused, crate::proofs::Answering::design_found))]
fn read_allowed(alloc: Global, bytes: &[u8]) -> Result<Design, VFail>
    requires { text.all_allowed bytes.now ≡ true }
    ensures { IsAnswer bytes.now result }
{
    tokens_are_scanned();
    designs_are_read();
    let tokens = match scan(alloc, bytes) {
        Ok(tokens) => tokens,
        Err(Unread::Refused(_)) => return Err(VFail::Refused(VRule::V2)),
        Err(Unread::OutOfMemory) => return Err(VFail::OutOfMemory),
    };
    match whole_design(alloc, tokens.as_slice()) {
        Ok(design) => Ok(design),
        Err(Unread::Refused(_)) => Err(VFail::Refused(VRule::V3)),
        Err(Unread::OutOfMemory) => Err(VFail::OutOfMemory),
    }
}

fn answer(alloc: Global, bytes: &[u8]) -> Result<Design, VFail>
    ensures { IsAnswer bytes.now result }
{
    if all_allowed(bytes) {
        read_allowed(alloc, bytes)
    } else {
        Err(VFail::Refused(VRule::V1))
    }
}

/// The design that a text spells, in the subset of IEEE Std 1076-1993. The text is any list of bytes. It is refused
/// with V1 where a byte stands anywhere that no text has, else with V2 where it is no list of tokens, else with V3 where
/// its tokens are not of the grammar, or nest more than 4,096 levels. The static rules V4 to V8 are not judged here.
pub fn read_spelled(alloc: Global, bytes: &[u8]) -> Result<Design, VFail>
    // What is read is spelled, and a rule that is named is the first one broken.
    ensures answer { IsAnswer bytes.now result }
    // What is spelled is read, unless memory runs out.
    ensures spelled { (design : Design) → IsSpelled bytes.now design → IsUnlessMemory (Ok design) result }
    // The first rule that is broken is named, unless memory runs out; V1 is judged without memory.
    ensures v1 { BreaksBytes bytes.now → result ≡ Err (fail.Refused v.V1) }
    ensures v2 { BreaksTokens bytes.now → IsUnlessMemory (Err (fail.Refused v.V2)) result }
    ensures v3 { BreaksGrammar bytes.now → IsUnlessMemory (Err (fail.Refused v.V3)) result }
{
    tokens_are_scanned();
    one_design_for_a_text();
    answer(alloc, bytes)
}
