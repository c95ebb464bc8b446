// Words, numbers and symbols (IEEE Std 1076-1993, sections 13.3, 13.4 and 13.9).
ghost use Rattle.std.specs.Prelude.{◌≡◌, [], ◌∷◌, map};
ghost use Rattle.std.specs.List.{list_any};
ghost use Rattle.std.specs.Char.{is_ascii_digit as digit, is_ascii_uppercase, to_ascii_lowercase};
ghost use Rattle.vh_tree.specs.Text as text;
ghost use Rattle.vh_tree_reading.specs.Scan as spec;
ghost use Rattle.rw_base.specs.Answers.{Gives};
ghost use Rattle.vhdl_read.specs.Kinds.{words_from};

use crate::class::first_is;
use rw_base::{NotSpelled, Unread};
use std::alloc::Global;
use vh_tree::{Ident, Mark, Token};

// The first of these marks that the bytes spell.
fn mark_among(marks: &[Mark], bytes: &[u8]) -> Option<Mark>
    ensures { result ≡ spec.mark_in marks.now bytes.now }
{
    for mark in marks {
        if bytes == mark.text() {
            return Some(*mark);
        }
    }
    None
}

// The word of the grammar that these bytes spell, which begin with this letter.
fn word_from(letter: u8, word: &[u8]) -> Option<Mark>
    ensures { result ≡ spec.mark_in (words_from letter) word.now }
{
    match letter {
        b'a' => mark_among(&[Mark::All, Mark::And, Mark::Architecture], word),
        b'b' => mark_among(&[Mark::Begin, Mark::Behaviour], word),
        b'c' => mark_among(&[Mark::Clk], word),
        b'd' => mark_among(&[Mark::Downto], word),
        b'e' => mark_among(&[Mark::Else, Mark::Elsif, Mark::End, Mark::Entity], word),
        b'f' => mark_among(&[Mark::Function], word),
        b'i' => mark_among(&[Mark::Ieee, Mark::If, Mark::In, Mark::Inp, Mark::Is], word),
        b'l' => mark_among(&[Mark::Library], word),
        b'o' => mark_among(&[Mark::Of, Mark::Out, Mark::Outp], word),
        b'p' => mark_among(&[Mark::Port, Mark::Process], word),
        b'r' => mark_among(
            &[Mark::Return, Mark::Rewire, Mark::RisingEdge, Mark::Rst],
            word,
        ),
        b's' => mark_among(&[Mark::Signal, Mark::StdLogic, Mark::StdLogicVector], word),
        b't' => mark_among(&[Mark::Then], word),
        b'u' => mark_among(&[Mark::Use], word),
        b'v' => mark_among(&[Mark::Variable], word),
        _ => None,
    }
}

// The word of the grammar that these bytes spell. Only those with the same first letter are looked at.
fn word_mark(word: &[u8]) -> Option<Mark>
    ensures { result ≡ spec.mark_in spec.words word.now }
{
    match word {
        [] => None,
        [letter, ..] => word_from(*letter, word),
    }
}

// The symbol of one byte.
pub fn single(symbol: u8) -> Option<Mark>
    ensures { result ≡ spec.mark_in spec.singles (symbol ∷ []) }
{
    match symbol {
        b'(' => Some(Mark::Opens),
        b')' => Some(Mark::Closes),
        b',' => Some(Mark::Comma),
        b';' => Some(Mark::Semicolon),
        b':' => Some(Mark::Colon),
        b'.' => Some(Mark::Dot),
        b'&' => Some(Mark::Amp),
        b'=' => Some(Mark::Equal),
        _ => None,
    }
}

fn has_digit(word: &[u8]) -> bool
    ensures { result ≡ list_any digit word.now }
{
    word.iter().any(|b| b.is_ascii_digit())
}

fn has_capital(word: &[u8]) -> bool
    ensures { result ≡ list_any is_ascii_uppercase word.now }
{
    word.iter().any(|b| b.is_ascii_uppercase())
}

fn ends_single(word: &[u8]) -> bool
    ensures { result ≡ text.ends_single word.now }
{
    match word {
        [] => true,
        [b, ..] => *b == b'_',
    }
}

// No underscore stands last or before another.
fn single_underscores(word: &[u8]) -> bool
    ensures { result ≡ text.single_underscores word.now }
{
    let mut rest = word;
    for _turn in 0..word.len() {
        let [b, behind @ ..] = rest else {
            break;
        };
        if *b == b'_' && ends_single(behind) {
            return false;
        }
        rest = behind;
    }
    true
}

// A word in lower case, as a token.
#[tactic(auto, unfolding(vh_tree_reading::specs::Scan::word_token))]
fn low_word(alloc: Global, word: &[u8]) -> Result<Token, Unread>
    ensures { Gives (λ x. x) result (spec.word_token word.now) }
{
    if word == b"std_logic_1164".as_slice() {
        return Ok(Token::Mark(Mark::StdLogic1164));
    }
    if has_digit(word) {
        if single_underscores(word) {
            return Ok(Token::Id(Ident::from_slice(alloc, word)?));
        }
        return Err(Unread::Refused(NotSpelled));
    }
    match word_mark(word) {
        Some(mark) => Ok(Token::Mark(mark)),
        None => Err(Unread::Refused(NotSpelled)),
    }
}

// A word, as a token. Its case does not matter, and only one with a capital letter is copied for that.
pub fn word_token(alloc: Global, word: &[u8]) -> Result<Token, Unread>
    ensures { Gives (λ x. x) result (spec.word_token (map to_ascii_lowercase word.now)) }
{
    if has_capital(word) {
        let low = word.to_ascii_lowercase(alloc)?;
        return low_word(alloc, &low);
    }
    low_word(alloc, word)
}

// The value of digits, if it is at most 2,147,483,647.
#[tactic(auto, unfolding(vh_tree_reading::specs::Scan::value_of))]
fn number_value(digits: &[u8]) -> Option<u32>
    ensures { result ≡ spec.value_of digits.now }
{
    let mut value = 0u32;
    for b in digits {
        let next = 10 * (value as u64) + (b.saturating_sub(b'0') as u64);
        if next > 2147483647 {
            return None;
        }
        value = next as u32;
    }
    Some(value)
}

// The number that digits spell, without a leading zero.
#[tactic(auto, unfolding(vh_tree_reading::specs::Scan::number_of))]
pub fn number(digits: &[u8]) -> Result<u32, Unread>
    ensures { Gives (λ x. x) result (spec.number_of digits.now) }
{
    if first_is(digits, b'0') && digits.len() > 1 {
        return Err(Unread::Refused(NotSpelled));
    }
    match number_value(digits) {
        Some(n) => Ok(n),
        None => Err(Unread::Refused(NotSpelled)),
    }
}
