// The tokens of a text, from left to right (IEEE Std 1076-1993, section 13.2).
ghost use Rattle.std.specs.Prelude.{◌≡◌, ◌↔◌, List, length, map, Some, ◌++◌, [], OnOk, IfOk, IsErrOf};
ghost use Rattle.rw_base.specs.declared.bit.Bit9.{Bit9};
ghost use Rattle.vh_tree.specs.declared.token.Token.{Token};
ghost use Rattle.vh_tree.specs.Text.{IsText};
ghost use Rattle.vh_tree_reading.specs.Scan as spec;
ghost use Rattle.rw_base.specs.Answers.{Gives};
ghost use Rattle.rw_base.specs.declared.fail.Failure.TheVariants as fail;

use crate::class::{Class, first_is, is_white, past, split};
use crate::word::{number, single, word_token};
use rw_base::{Bit9, NotSpelled, Unread};
use sqlite_items::Items;
use std::alloc::{AllocError, Global};
use vh_tree::{Mark, Token};
use vh_tree_reading::tokens_are_scanned;

// The value that a letter shows.
fn bit(b: u8) -> Bit9
    ensures { result ≡ spec.bit_at b }
{
    if b == b'U' {
        Bit9::U
    } else if b == b'X' {
        Bit9::X
    } else if b == b'0' {
        Bit9::Zero
    } else if b == b'1' {
        Bit9::One
    } else if b == b'Z' {
        Bit9::Z
    } else if b == b'W' {
        Bit9::W
    } else if b == b'L' {
        Bit9::L
    } else if b == b'H' {
        Bit9::H
    } else {
        Bit9::Dash
    }
}

fn bits(alloc: Global, letters: &[u8]) -> Result<Items<Bit9>, Unread>
    ensures { Gives (λ x. x) result (Some (map spec.bit_at letters.now)) }
{
    let mut all = Items::new(alloc);
    for b in letters {
        all.push(bit(*b))?;
    }
    Ok(all)
}

// What stands behind a quote.
#[tactic(auto, unfolding(vh_tree_reading::specs::Scan::string_at))]
fn string(alloc: Global, text: &[u8]) -> Result<(Option<Token>, &[u8]), Unread>
    ensures { Gives (λ x. (x.0, x.1.now)) result (spec.string_at text.now) }
{
    let (letters, rest) = split(Class::Bit, text);
    if letters.len() == 0 || !first_is(rest, b'"') {
        return Err(Unread::Refused(NotSpelled));
    }
    Ok((Some(Token::Bits(bits(alloc, letters)?)), past(rest)))
}

// The symbol that begins with b.
#[tactic(auto, unfolding(vh_tree_reading::specs::Scan::symbol_at))]
fn symbol(b: u8, rest: &[u8]) -> Result<(Mark, &[u8]), Unread>
    ensures { Gives (λ x. (x.0, x.1.now)) result (spec.symbol_at b rest.now) }
{
    if b == b':' && first_is(rest, b'=') {
        return Ok((Mark::Assign, past(rest)));
    }
    if b == b'<' && first_is(rest, b'=') {
        return Ok((Mark::Drive, past(rest)));
    }
    if b == b'\'' && (first_is(rest, b'1') && first_is(past(rest), b'\'')) {
        return Ok((Mark::High, past(past(rest))));
    }
    match single(b) {
        Some(mark) => Ok((mark, rest)),
        None => Err(Unread::Refused(NotSpelled)),
    }
}

// A token or a gap, and what is behind it.
#[tactic(auto, unfolding(vh_tree_reading::specs::Scan::front))]
fn front(alloc: Global, text: &[u8]) -> Result<(Option<Token>, &[u8]), Unread>
    ensures { Gives (λ x. (x.0, x.1.now)) result (spec.front text.now) }
{
    let [b, rest @ ..] = text else {
        return Err(Unread::Refused(NotSpelled));
    };
    if b.is_ascii_digit() {
        let (digits, behind) = split(Class::Digit, text);
        return Ok((Some(Token::Number(number(digits)?)), behind));
    }
    if b.is_ascii_alphabetic() {
        let (word, behind) = split(Class::Word, text);
        return Ok((Some(word_token(alloc, word)?), behind));
    }
    if is_white(*b) {
        return Ok((None, rest));
    }
    if *b == b'"' {
        return string(alloc, rest);
    }
    if *b == b'-' && first_is(rest, b'-') {
        let (_line, behind) = split(Class::Line, past(rest));
        return Ok((None, behind));
    }
    let (mark, behind) = symbol(*b, rest)?;
    Ok((Some(Token::Mark(mark)), behind))
}

fn add(all: &mut Items<Token>, one: Option<Token>) -> Result<(), AllocError>
    ensures { OnOk result (all.new ≡ all.old ++ spec.added one []) }
{
    if let Some(token) = one {
        all.push(token)?;
    }
    Ok(())
}

// All tokens, by as many turns as there are bytes at most.
#[tactic(auto, unfolding(vh_tree_reading::specs::Scan::scanned))]
pub fn scan(alloc: Global, text: &[u8]) -> Result<Items<Token>, Unread>
    ensures { Gives (λ x. x) result (spec.scanned text.now) }
{
    let mut all = Items::new(alloc);
    let mut rest = text;
    for _turn in 0..text.len() {
        if rest.is_empty() {
            break;
        }
        let (one, behind) = front(alloc, rest)?;
        add(&mut all, one)?;
        rest = behind;
    }
    if rest.is_empty() {
        Ok(all)
    } else {
        Err(Unread::Refused(NotSpelled))
    }
}

/// The tokens that the bytes of a text spell (IEEE Std 1076-1993, sections 13.2 to 13.9, a subset): none is refused
/// that spells tokens, and none is read that spells none.
pub fn tokens_of(alloc: Global, text: &[u8]) -> Result<Items<Token>, Unread>
    ensures found { IfOk result (λ tokens. IsText text.now tokens) }
    ensures only { IfOk result (λ found. (tokens : List Token) → IsText text.now tokens → tokens ≡ found) }
    ensures refused { IsErrOf result (fail.Refused (record {})) → (tokens : List Token) → IsText text.now tokens → ⊥ }
{
    tokens_are_scanned();
    scan(alloc, text)
}
