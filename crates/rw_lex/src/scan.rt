// The scan from a source's bytes to its tokens. At each turn what was read is pieces, and what they gave, put before
// what is to come, is what the whole source gives.
ghost use Rattle.std.specs.Prelude.{◌≡◌, ◌⊎◌, ◌≤◌, ◌<◌, ◌+◌, ◌*◌, ◌^◌, ◌++◌, ℕ, List, [], Ok, Err, OnOk, IfOk, length};
ghost use Rattle.rw_base.specs.Places.{place_after};
ghost use Rattle.rw_base.specs.declared.fail.Refusal.{Refusal};
ghost use Rattle.rw_lex.specs.declared.token.Token.{Token};
ghost use Rattle.rw_lex.specs.Scan as spec;
ghost use Rattle.rw_lex.specs.Scan.{FailsBy};
ghost use Rattle.rw_base.specs.Answers.{Answers};
ghost use Rattle.rw_lex.specs.Tokens.{IsTokenList, Breaks, IfRefused};

use crate::Token;
use crate::piece::{Piece, piece_at};
use rw_base::{Fail, Name, Place, Refusal, Rule};
use std::alloc::Global;

// What was read so far: its tokens, the place behind it, and the line of the last token, 0 if there is none.
#[derive(Drop)]
struct Reader {
    tokens: Vec<Token>,
    at: Place,
    line: u32,
}

// The place behind these bytes, the first of which stands at `at`.
fn place_behind(at: Place, bytes: &[u8]) -> Place
    requires line { at.line + length bytes.now < 2 ^ 32 }
    requires column { at.column + 8 * length bytes.now < 2 ^ 32 }
    ensures value { result ≡ spec.place_from at bytes.now }
    ensures line { result.line ≤ at.line + length bytes.now }
    ensures column { result.column ≤ at.column + 8 * length bytes.now }
{
    let mut place = at;
    for byte in bytes {
        place = place.after(*byte);
    }
    place
}

impl Reader {
    // Goes on behind a piece, whose bytes are `text`.
    fn take(&mut self, alloc: Global, piece: Piece, text: &[u8]) -> Result<(), Fail>
        requires line { self.now.at.line + length text.now < 2 ^ 32 }
        requires column { self.now.at.column + 8 * length text.now < 2 ^ 32 }
        ensures tokens { OnOk result (self.new.tokens.items ≡ self.old.tokens.items ++ spec.tokens_of piece text.now self.old.at self.old.line) }
        ensures at { OnOk result (self.new.at ≡ spec.place_from self.old.at text.now) }
        ensures line { OnOk result (self.new.line ≡ spec.last_line piece self.old.at self.old.line) }
        ensures lines { OnOk result (self.new.at.line ≤ self.old.at.line + length text.now) }
        ensures columns { OnOk result (self.new.at.column ≤ self.old.at.column + 8 * length text.now) }
        ensures refused { FailsBy result (spec.refusal_of piece self.old.at) }
    {
        let place = self.at;
        match piece {
            Piece::Gap(_) => {}
            Piece::Token(kind, _) => {
                let first = place.line != self.line;
                let name = Name::from_slice(alloc, text)?;
                self.tokens.push(Token {
                    kind,
                    text: name,
                    at: place,
                    first,
                })?;
                self.line = place.line;
            }
            Piece::Unclosed => {
                return Err(Fail::Refused(Refusal {
                    rule: Rule::E03,
                    place,
                }));
            }
            Piece::Nothing => {
                return Err(Fail::Refused(Refusal {
                    rule: Rule::E02,
                    place,
                }));
            }
        }
        self.at = place_behind(place, text);
        Ok(())
    }
}

// The tokens of a source, from its first byte to its last.
fn scanned(alloc: Global, bytes: &[u8]) -> Result<Vec<Token>, Fail>
    requires short { length bytes.now ≤ 262144 }
    ensures { Answers (λ tokens. tokens.items) result (spec.tokens_from (place_after []) 0 bytes.now) }
{
    let mut reader = Reader {
        tokens: Vec::new(alloc),
        at: Place::START,
        line: 0,
    };
    let mut rest = bytes;
    while !rest.is_empty() {
        let piece = piece_at(rest);
        let (text, behind) = rest.split_at(piece.len());
        reader.take(alloc, piece, text)?;
        rest = behind;
    }
    Ok(reader.tokens)
}

/// The tokens of a source, with their places (Haskell 2010 Report, sections 2.2 to 2.4, in this project's profile).
///
/// `bytes` are those of the source, at most 262,144. Each token is as long as it can be; white space and comments lie
/// between tokens. The answer is `Refused` exactly where the source has no token list: by E02 at the first byte
/// at which neither a gap nor a token starts, or by E03 at the outermost `{-` of a block comment that isn't closed.
pub fn lex(alloc: Global, bytes: &[u8]) -> Result<Vec<Token>, Fail>
    requires short { length bytes.now ≤ 262144 }
    // The tokens are the token list of the source.
    ensures tokens { IfOk result (λ tokens. IsTokenList bytes.now tokens.items) }
    // A refusal says the rule that the source breaks, and where.
    ensures refused { IfRefused result (λ refusal. Breaks bytes.now refusal) }
    // A source that has a token list is never refused, and the answer is that list.
    ensures listed { (tokens : List Token) → IsTokenList bytes.now tokens → Answers (λ found. found.items) result (Ok tokens) }
    // A source that breaks a rule is refused by it, at that place.
    ensures broken { (refusal : Refusal) → Breaks bytes.now refusal → Answers (λ found. found.items) result (Err refusal) }
{
    scanned(alloc, bytes)
}

/// A source has at most one token list.
pub fn one_token_list()
    ensures { (bytes : List ℕ) (a b : List Token) → IsTokenList bytes a → IsTokenList bytes b → a ≡ b }
{}

/// A source has a token list or breaks a rule.
pub fn tokens_or_refusal()
    ensures { (bytes : List ℕ) → ((tokens : List Token) × IsTokenList bytes tokens) ⊎ ((refusal : Refusal) × Breaks bytes refusal) }
{}

/// A source that has a token list breaks no rule.
pub fn never_both()
    ensures { (bytes : List ℕ) (tokens : List Token) (refusal : Refusal) → IsTokenList bytes tokens → Breaks bytes refusal → ⊥ }
{}

/// A source breaks at most one rule, at one place.
pub fn one_refusal()
    ensures { (bytes : List ℕ) (a b : Refusal) → Breaks bytes a → Breaks bytes b → a ≡ b }
{}
