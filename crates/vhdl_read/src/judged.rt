// A text judged by all rules: from its bytes to the design that it spells, where the static rules hold of it.
ghost use Rattle.std.specs.Prelude.{◌≡◌, true, Ok, Err, IfOk, IsErrOf};
ghost use Rattle.rw_base.specs.declared.rule.VRule.{VRule};
ghost use Rattle.rw_base.specs.declared.rule.VRule.TheVariants as v;
ghost use Rattle.vh_tree.specs.declared.design.Design.{Design};
ghost use Rattle.vh_tree.specs.Text.{all_allowed};
ghost use Rattle.vh_tree.specs.Spelling.{IsSpelled, BreaksBytes};
ghost use Rattle.vh_tree.specs.Spellable.{IsSpellable};
ghost use Rattle.vh_tree.specs.StaticRules.{IsStatic};
ghost use Rattle.vh_tree.specs.Canonical.{canonical_text};
ghost use Rattle.rw_base.specs.declared.fail.Failure.TheVariants as fail;
ghost use Rattle.rw_base.specs.Answers.{IsUnlessMemory};
ghost use Rattle.vhdl_read.specs.Reading.{IsFirstBroken, IsJudgment};

use crate::spelled::read_spelled;
use rw_base::VFail;
use std::alloc::Global;
use vh_tree::Design;
use vh_tree_reading::{first_broken_law, one_design_for_a_text, tokens_are_scanned};
use vh_tree_spelling::spellable_designs_are_spelled;
use vh_tree_static::check_static;

// Read, then checked.
fn judgment(alloc: Global, bytes: &[u8]) -> Result<Design, VFail>
    ensures { IsJudgment bytes.now result }
{
    let design = match read_spelled(alloc, bytes) {
        Ok(design) => design,
        Err(e) => return Err(e),
    };
    match check_static(alloc, &design) {
        Ok(()) => Ok(design),
        Err(e) => Err(e),
    }
}

/// The design that a text spells, in the subset of IEEE Std 1076-1993, where the static rules hold of it. The text is
/// any list of bytes. It is refused exactly where it breaks one of the rules V1 to V8, with the first of them: V1 where
/// a byte stands anywhere that no text has, V2 where it is no list of tokens, V3 where its tokens are not of the grammar
/// or nest more than 4,096 levels, and V4 to V8 as `check_static` says.
pub fn read(alloc: Global, bytes: &[u8]) -> Result<Design, VFail>
    // What is read is spelled, and the static rules hold of it.
    ensures ok { IfOk result (λ design. IsSpelled bytes.now design × IsStatic design) }
    // A rule that is named is the first one broken.
    ensures refused { (rule : VRule) → IsErrOf result (fail.Refused rule) → IsFirstBroken bytes.now rule }
    // Memory is asked for only where all bytes are allowed.
    ensures memory { IsErrOf result fail.OutOfMemory → all_allowed bytes.now ≡ true }
    // What is spelled and static is read, unless memory runs out.
    ensures spelled { (design : Design) → IsSpelled bytes.now design → IsStatic design → IsUnlessMemory (Ok design) result }
    // The first rule that is broken is named, unless memory runs out; V1 is judged without memory.
    ensures broken { (rule : VRule) → IsFirstBroken bytes.now rule → IsUnlessMemory (Err (fail.Refused rule)) result }
    ensures v1 { BreaksBytes bytes.now → result ≡ Err (fail.Refused v.V1) }
    // The canonical text of a static design gives the design back, unless memory runs out.
    ensures round_trip { (design : Design) → IsSpellable design → IsStatic design → bytes.now ≡ canonical_text design → IsUnlessMemory (Ok design) result }
{
    tokens_are_scanned();
    one_design_for_a_text();
    spellable_designs_are_spelled();
    first_broken_law();
    judgment(alloc, bytes)
}
