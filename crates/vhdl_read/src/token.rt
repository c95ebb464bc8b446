// Tokens one by one, from the front of a list.
ghost use Rattle.std.specs.Prelude.{◌≡◌, drop, IfOk};
ghost use Rattle.vh_tree_reading.specs.Read as reads;
ghost use Rattle.vh_tree_reading.specs.ReadDesign as designs;
ghost use Rattle.rw_base.specs.Answers.{Gives};

use rw_base::{Bit9, NotSpelled, OutOfMemory, Unread};
use sqlite_items::Items;
use std::alloc::Global;
use vh_tree::{Ident, Mark, Token};

#[tactic(auto, unfolding(vh_tree_reading::specs::Read::same_mark))]
fn same_mark(a: Mark, b: Mark) -> bool
    ensures { result ≡ reads.same_mark a b }
{
    a == b
}

// The next token is this mark.
pub fn sees(tokens: &[Token], wanted: Mark) -> bool
    ensures { result ≡ reads.sees wanted tokens.now }
{
    match tokens {
        [Token::Mark(mark), ..] => same_mark(*mark, wanted),
        _ => false,
    }
}

// The tokens but for the first.
pub fn rest_of(tokens: &[Token]) -> &[Token]
    ensures { result.now ≡ drop 1 tokens.now }
{
    match tokens {
        [] => tokens,
        [_, rest @ ..] => rest,
    }
}

// The tokens after a mark.
#[tactic(auto, unfolding(vh_tree_reading::specs::Read::after))]
pub fn after(tokens: &[Token], wanted: Mark) -> Result<&[Token], Unread>
    ensures { Gives (λ r. r.now) result (reads.after wanted tokens.now) }
{
    if sees(tokens, wanted) {
        Ok(rest_of(tokens))
    } else {
        Err(Unread::Refused(NotSpelled))
    }
}

// The tokens after these marks.
pub fn after_all<'a>(tokens: &'a [Token], wanted: &[Mark]) -> Result<&'a [Token], Unread>
    ensures { Gives (λ r. r.now) result (designs.after_all wanted.now tokens.now) }
{
    let mut rest = tokens;
    for mark in wanted {
        let behind = after(rest, *mark)?;
        rest = behind;
    }
    Ok(rest)
}

pub fn number(tokens: &[Token]) -> Result<(u32, &[Token]), Unread>
    ensures { Gives (λ x. (x.0, x.1.now)) result (reads.number_at tokens.now) }
{
    match tokens {
        [Token::Number(n), rest @ ..] => Ok((*n, rest)),
        _ => Err(Unread::Refused(NotSpelled)),
    }
}

pub fn bits(alloc: Global, tokens: &[Token]) -> Result<(Items<Bit9>, &[Token]), Unread>
    ensures { Gives (λ x. (x.0, x.1.now)) result (reads.bits_at tokens.now) }
{
    match tokens {
        [Token::Bits(bits), rest @ ..] => Ok((copied(alloc, bits.as_slice())?, rest)),
        _ => Err(Unread::Refused(NotSpelled)),
    }
}

fn copied(alloc: Global, bits: &[Bit9]) -> Result<Items<Bit9>, OutOfMemory>
    ensures { IfOk result (λ copy. copy ≡ bits.now) }
{
    let mut all = Items::new(alloc);
    for bit in bits {
        all.push(*bit)?;
    }
    Ok(all)
}

// A declared name, or `inp`.
pub fn name(alloc: Global, tokens: &[Token]) -> Result<(Ident, &[Token]), Unread>
    ensures { Gives (λ x. (x.0, x.1.now)) result (reads.name_at tokens.now) }
{
    match tokens {
        [Token::Id(name), rest @ ..] => Ok((name.copied(alloc)?, rest)),
        [Token::Mark(Mark::Inp), rest @ ..] => Ok((Ident::from_slice(alloc, b"inp")?, rest)),
        _ => Err(Unread::Refused(NotSpelled)),
    }
}

// A declared name.
pub fn id(alloc: Global, tokens: &[Token]) -> Result<(Ident, &[Token]), Unread>
    ensures { Gives (λ x. (x.0, x.1.now)) result (designs.id_at tokens.now) }
{
    match tokens {
        [Token::Id(name), rest @ ..] => Ok((name.copied(alloc)?, rest)),
        _ => Err(Unread::Refused(NotSpelled)),
    }
}

pub fn begins_number(tokens: &[Token]) -> bool
    ensures { result ≡ reads.begins_number tokens.now }
{
    matches!(tokens, [Token::Number(_), ..])
}

pub fn begins_id(tokens: &[Token]) -> bool
    ensures { result ≡ reads.begins_id tokens.now }
{
    matches!(tokens, [Token::Id(_), ..])
}

pub fn begins_bits(tokens: &[Token]) -> bool
    ensures { result ≡ reads.begins_bits tokens.now }
{
    matches!(tokens, [Token::Bits(_), ..])
}

// A declared name, which stays where it is.
pub fn id_in(tokens: &[Token]) -> Result<(&Ident, &[Token]), Unread>
    ensures { Gives (λ x. (x.0.now, x.1.now)) result (designs.id_at tokens.now) }
{
    match tokens {
        [Token::Id(name), rest @ ..] => Ok((name, rest)),
        _ => Err(Unread::Refused(NotSpelled)),
    }
}
