// Printed lines.
ghost use Rattle.std.specs.Prelude.{◌≡◌, ◌++◌, OnOk, IfOk, map};
ghost use Rattle.vh_tree.specs.VToken.{letter};
ghost use Rattle.rw_trace.specs.Traces.{line_of};

use rw_base::{Bit9, OutOfMemory, Text};
use std::alloc::Global;
use vhdl_print::letter_of;

// Appends the letters of values.
fn push_letters(text: &mut Text, bits: &[Bit9]) -> Result<(), OutOfMemory>
    ensures { OnOk result (text.new ≡ text.old ++ map letter bits.now) }
{
    for bit in bits {
        text.push(&[letter_of(*bit)])?;
    }
    Ok(())
}

/// Appends the line of these values, the leftmost first: a letter of `UX01ZWLH-` for each (IEEE Std 1164-1993,
/// section 3), and LF.
pub fn push_line(text: &mut Text, bits: &[Bit9]) -> Result<(), OutOfMemory>
    ensures { OnOk result (text.new ≡ text.old ++ line_of bits.now) }
{
    push_letters(text, bits)?;
    text.push(b"\n")
}

/// The line of these values, the leftmost first: a letter of `UX01ZWLH-` for each (IEEE Std 1164-1993, section 3),
/// and LF.
pub fn line(alloc: Global, bits: &[Bit9]) -> Result<Text, OutOfMemory>
    ensures { IfOk result (λ text. text ≡ line_of bits.now) }
{
    let mut text = Text::new(alloc);
    push_line(&mut text, bits)?;
    Ok(text)
}
