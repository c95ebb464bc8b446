// A source from its bytes to the text of its design.
ghost use Rattle.std.specs.Prelude.{◌≡◌, ◌↔◌, List, IsTrue, IfOk, IsErrOf, not, filter};
ghost use Rattle.std.specs.List.{flat_map};
ghost use Rattle.rw_lex.specs.declared.token.Token.{Token};
ghost use Rattle.explicit_form.specs.Explicit.{HasNoComment, HasTokens, Spells, IsCompiled, IsExplicitSource, IsMachineOfSource};
ghost use Rattle.explicit_form.specs.Right.{IsRight};
ghost use Rattle.explicit_form.specs.declared.form.Form.{Form};
ghost use Rattle.register_machine.specs.Machine.{IsMachine};
ghost use Rattle.explicit_form.specs.Explicit as explicit;
ghost use Rattle.rw_base.specs.declared.fail.Failure.TheVariants as fail;

use crate::fit::machine;
use crate::form::Form;
use crate::law::compiled_law;
use crate::read::read_form;
use register_machine::{Machine, design};
use rw_base::{Fail, NotSpelled, Unread};
use rw_lex::{Token, lex};
use std::alloc::{AllocError, Global};
use vhdl_print::print;

// How many bytes a source may have.
const MOST_BYTES: usize = 262_144;

fn is_white(byte: u8) -> bool
    ensures { result ≡ explicit.is_white byte }
{
    byte == b' ' || byte == b'\n' || byte == b'\t' || byte == b'\r' || byte == 12
}

// The bytes of a source but for white space.
fn bare_bytes(alloc: Global, source: &[u8]) -> Result<Vec<u8>, AllocError>
    ensures { IfOk result (λ bytes. bytes.items ≡ filter (λ b. not (explicit.is_white b)) source.now) }
{
    source
        .iter()
        .copied()
        .filter(|byte| !is_white(*byte))
        .collect(alloc)
}

// The bytes of the tokens, one after another.
fn token_bytes(alloc: Global, tokens: &[Token]) -> Result<Vec<u8>, AllocError>
    ensures { IfOk result (λ bytes. bytes.items ≡ flat_map (λ t. t.text) tokens.now) }
{
    let mut bytes = Vec::new(alloc);
    for token in tokens {
        bytes.extend_from_slice(token.text.as_slice())?;
    }
    Ok(bytes)
}

// Whether nothing but white space stands between the tokens of a source.
fn has_no_comment(alloc: Global, source: &[u8], tokens: &[Token]) -> Result<bool, AllocError>
    ensures { IfOk result (λ bare. IsTrue bare ↔ HasNoComment source.now tokens.now) }
{
    let spelled = token_bytes(alloc, tokens)?;
    let bare = bare_bytes(alloc, source)?;
    Ok(spelled.as_slice() == bare.as_slice())
}

// The tokens of a source without comments.
fn bare_tokens(alloc: Global, source: &[u8]) -> Result<Vec<Token>, Unread>
    ensures found { IfOk result (λ tokens. HasTokens source.now tokens.items) }
    ensures refused { IsErrOf result (fail.Refused (record {})) → (tokens : List Token) → HasTokens source.now tokens → ⊥ }
    ensures only { IfOk result (λ found. (tokens : List Token) → HasTokens source.now tokens → tokens ≡ found.items) }
{
    if source.len() > MOST_BYTES {
        return Err(Unread::Refused(NotSpelled));
    }
    let tokens = match lex(alloc, source) {
        Ok(tokens) => tokens,
        Err(Fail::Refused(_)) => return Err(Unread::Refused(NotSpelled)),
        Err(Fail::OutOfMemory) => return Err(Unread::OutOfMemory),
    };
    if has_no_comment(alloc, source, &tokens)? {
        Ok(tokens)
    } else {
        Err(Unread::Refused(NotSpelled))
    }
}

// The tree that the tokens of a source spell.
fn read_tree(alloc: Global, source: &[u8]) -> Result<Form, Unread>
    ensures found { IfOk result (λ form. Spells source.now form) }
    ensures refused { IsErrOf result (fail.Refused (record {})) → (form : Form) → Spells source.now form → ⊥ }
    ensures only { IfOk result (λ found. (form : Form) → Spells source.now form → form ≡ found) }
{
    let tokens = bare_tokens(alloc, source)?;
    read_form(alloc, &tokens)
}

/// The machine of a source of the explicit form: a state for each function, in the order of the source.
///
/// `source` are the bytes of the source. The answer is `NotOfTheForm` exactly where it isn't of the explicit form:
/// where it has more than 262,144 bytes, no token list, a comment, tokens that are not of the grammar, or names
/// that are not in order.
pub fn read_machine(alloc: Global, source: &[u8]) -> Result<Machine, Unread>
    ensures found { IfOk result (λ m. IsMachineOfSource source.now m) }
    ensures refused { IsErrOf result (fail.Refused (record {})) → IsExplicitSource source.now → ⊥ }
    ensures fits { IfOk result IsMachine }
{
    let form = read_tree(alloc, source)?;
    machine(alloc, &form)
}

/// The VHDL text of a source of the explicit form: the canonical text of the design of its machine.
///
/// The text spells one design, which shows the outputs of the source: the first after a reset edge, and the next after
/// each input, by the encodings of the constructors (IEEE Std 1076-1993, section 12.6.4).
///
/// `source` are the bytes of the source. The answer is `NotOfTheForm` exactly where it isn't of the explicit form.
pub fn compile(alloc: Global, source: &[u8]) -> Result<Vec<u8>, Unread>
    ensures compiled { IfOk result (λ text. IsCompiled source.now text.items) }
    ensures right { IfOk result (λ text. IsRight source.now text.items) }
    ensures refused { IsErrOf result (fail.Refused (record {})) → IsExplicitSource source.now → ⊥ }
{
    let machine = read_machine(alloc, source)?;
    let design = design(alloc, &machine)?;
    compiled_law();
    Ok(print(alloc, &design)?)
}
