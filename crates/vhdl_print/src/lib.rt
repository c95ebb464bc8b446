//! The printer: the canonical text of a design.
//!
//! It leaves the rules that a design must keep to `vh_tree`, and prints any design; where the design can be spelled
//! at all, its text spells it. The compiler calls it last, on the design that it made. Begin with the definition
//! `canonical_text` of `vh_tree`, and then with `design.rt`.
#![tactic(auto)]

ghost use Rattle.std.specs.Prelude.{◌≡◌, IfOk};
ghost use Rattle.vh_tree.specs.Canonical.{canonical_text};
ghost use Rattle.vh_tree.specs.Spellable.{IsSpellable};
ghost use Rattle.vh_tree.specs.Spelling.{IsSpelled};

mod design;
mod expr;
mod function;
mod process;
mod stmt;
mod text;

use rw_base::OutOfMemory;
use std::alloc::Global;
pub use text::letter_of;
use vh_tree::Design;
use vh_tree_spelling::spellable_designs_are_spelled;

/// The canonical text of a design: its tokens in order, in lower case, one space between two of them, but a line
/// feed behind each `;`, `is`, `begin`, `then` and `else`. An empty `else` isn't written. The text ends with a
/// line feed.
///
/// Any design is printed. The text spells the design (IEEE Std 1076-1993, annex A, profiled by the grammar of
/// `vh_tree`) where the design can be spelled: its names are words of the grammar, its widths and bounds numbers
/// that the text can say, lists that may not be empty have an element, and its `if`s and calls are nested within the
/// bound. The static rules don't say that, since they take any bytes for a name and any depth. Each design that a
/// reader gives can be spelled, by the law `spelled_designs_are_spellable` of `vh_tree_spelling`.
pub fn print(alloc: Global, design: &Design) -> Result<Vec<u8>, OutOfMemory>
    ensures bytes { IfOk result (λ text. text.items ≡ canonical_text design.now) }
    ensures spells { IfOk result (λ text. IsSpellable design.now → IsSpelled text.items design.now) }
{
    let mut text = Vec::new(alloc);
    design::push_design(&mut text, design)?;
    spellable_designs_are_spelled();
    Ok(text)
}
