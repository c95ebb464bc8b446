// Single tokens at the end of a text, each with what stands between it and the next.
ghost use Rattle.std.specs.Prelude.{◌≡◌, ◌∷◌, ◌++◌, [], OnOk};
ghost use Rattle.rw_base.specs.declared.bit.Bit9.{Bit9};
ghost use Rattle.vh_tree.specs.declared.token.Token.TheVariants as t;
ghost use Rattle.vh_tree.specs.VToken.{letter, marks as marks_of, name_token};
ghost use Rattle.vh_tree.specs.Canonical.{range_tokens, separator, spelled};

use itoa::Buffer;
use rw_base::{Bit9, OutOfMemory};
use vh_tree::{Ident, Mark};

/// The byte behind a mark: these five end a line.
fn separator_after(mark: Mark) -> u8
    ensures { result ≡ separator (t.Mark mark) }
{
    match mark {
        Mark::Semicolon | Mark::Is | Mark::Begin | Mark::Then | Mark::Else => b'\n',
        _ => b' ',
    }
}

/// Appends a mark.
#[tactic(auto, unfolding(vh_tree::specs::Canonical::with_separator))]
pub fn push_mark(text: &mut Vec<u8>, mark: Mark) -> Result<(), OutOfMemory>
    ensures { OnOk result (text.new.items ≡ text.old.items ++ spelled (t.Mark mark ∷ [])) }
{
    text.extend_from_slice(mark.text())?;
    text.push(separator_after(mark))?;
    Ok(())
}

/// Appends marks in order.
pub fn push_marks(text: &mut Vec<u8>, marks: &[Mark]) -> Result<(), OutOfMemory>
    ensures { OnOk result (text.new.items ≡ text.old.items ++ spelled (marks_of marks.now)) }
{
    for mark in marks {
        push_mark(text, *mark)?;
    }
    Ok(())
}

/// Appends a name.
pub fn push_name(text: &mut Vec<u8>, name: &Ident) -> Result<(), OutOfMemory>
    ensures { OnOk result (text.new.items ≡ text.old.items ++ spelled (name_token name.now ∷ [])) }
{
    text.extend_from_slice(name.as_slice())?;
    text.push(b' ')?;
    Ok(())
}

/// Appends a number.
#[tactic(auto, unfolding(vh_tree::specs::Canonical::with_separator))]
pub fn push_number(text: &mut Vec<u8>, number: u32) -> Result<(), OutOfMemory>
    ensures { OnOk result (text.new.items ≡ text.old.items ++ spelled (t.Number number ∷ [])) }
{
    let mut buffer = Buffer::new();
    text.extend_from_slice(buffer.format(number).as_bytes())?;
    text.push(b' ')?;
    Ok(())
}

/// The letter of a value of a wire.
pub fn letter_of(bit: Bit9) -> u8
    ensures { result ≡ letter bit }
{
    match bit {
        Bit9::U => b'U',
        Bit9::X => b'X',
        Bit9::Zero => b'0',
        Bit9::One => b'1',
        Bit9::Z => b'Z',
        Bit9::W => b'W',
        Bit9::L => b'L',
        Bit9::H => b'H',
        Bit9::Dash => b'-',
    }
}

/// Appends a string of the nine values.
#[tactic(auto, unfolding(vh_tree::specs::Canonical::with_separator))]
pub fn push_bits(text: &mut Vec<u8>, bits: &[Bit9]) -> Result<(), OutOfMemory>
    ensures { OnOk result (text.new.items ≡ text.old.items ++ spelled (t.Bits bits.now ∷ [])) }
{
    text.push(b'"')?;
    for bit in bits {
        text.push(letter_of(*bit))?;
    }
    text.extend_from_slice(b"\" ")?;
    Ok(())
}

/// Appends `( high downto low )`.
pub fn push_range(text: &mut Vec<u8>, high: u32, low: u32) -> Result<(), OutOfMemory>
    ensures { OnOk result (text.new.items ≡ text.old.items ++ spelled (range_tokens high low)) }
{
    push_mark(text, Mark::Opens)?;
    push_number(text, high)?;
    push_mark(text, Mark::Downto)?;
    push_number(text, low)?;
    push_mark(text, Mark::Closes)
}
