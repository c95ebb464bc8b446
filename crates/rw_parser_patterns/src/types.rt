// Types, by descent with one token of lookahead (Haskell 2010 Report, section 4.1.2). The grammar rule stands above
// each function. Arrows group to the right, so a loop reads them and no call goes down for them. A tree is kept where
// it has no more arrows inside one another than there is room for.
ghost use Rattle.std.specs.Prelude.{◌≡◌, ◌<◌, ◌≤◌, suc, pred, length, ℕ, IfOk};
ghost use Rattle.rw_parser_reading.specs.Read.{separated_at};
ghost use Rattle.rw_parser_reading.specs.ReadTypes as spec;
ghost use Rattle.rw_parser_grammar.specs.Types as grammar;
ghost use Rattle.rw_parser_reading.specs.Frames.{frames_of_type, most, cut};
ghost use Rattle.rw_parser_grammar.specs.declared.lexeme.Mark.TheVariants as m;
ghost use Rattle.rw_parser_patterns.specs.Given as given;
ghost use Rattle.rw_base.specs.Answers.{Gives};
ghost use Rattle.rw_parser_patterns.specs.Kept as keep;
ghost use Rattle.rw_parser_patterns.specs.Depth.{any_type_at};

use crate::parts::added;
use crate::token::{after, few, rest_of, same_mark, sees};
use rw_base::{NotSpelled, OutOfMemory, Unread};
use rw_parser_grammar::{Lexeme, Mark};
use rw_tree::Written;
use sqlite_items::{Boxed, Items};
use std::alloc::Global;

/// The type that the tokens begin with, if there is room for its arrows, and the tokens that follow it. It goes as far
/// to the right as it can (Haskell 2010 Report, section 4.1.2).
pub fn written_type(
    alloc: Global,
    room: usize,
    tokens: &[Lexeme],
) -> Result<(Option<Written>, &[Lexeme]), Unread>
    ensures read { (n : ℕ) → length tokens.now ≤ n → Gives (λ x. (x.0, x.1.now)) result (cut frames_of_type room (spec.type_at n tokens.now)) }
    ensures any { Gives (λ x. (x.0, x.1.now)) result (cut frames_of_type room (any_type_at tokens.now)) }
    ensures shorter { IfOk result (λ x. length x.1.now < length tokens.now) }
{
    read_type(alloc, room, tokens)
}

/// The type that the tokens begin with, of those that take no argument without parentheses.
pub fn atype(
    alloc: Global,
    room: usize,
    tokens: &[Lexeme],
) -> Result<(Option<Written>, &[Lexeme]), Unread>
    ensures read { (n : ℕ) → length tokens.now ≤ suc n → Gives (λ x. (x.0, x.1.now)) result (cut frames_of_type room (spec.atype_at (spec.type_at n) tokens.now)) }
    ensures any { Gives (λ x. (x.0, x.1.now)) result (cut frames_of_type room (spec.atype_at any_type_at tokens.now)) }
    ensures shorter { IfOk result (λ x. length x.1.now < length tokens.now) }
{
    read_atype(alloc, room, tokens)
}

/// As many of these as the tokens begin with.
pub fn atypes(
    alloc: Global,
    room: usize,
    tokens: &[Lexeme],
) -> Result<(Option<Items<Written>>, &[Lexeme]), Unread>
    ensures read { (n : ℕ) → length tokens.now ≤ suc n → Gives (λ x. (x.0, x.1.now)) result (cut (most frames_of_type) room (spec.atypes_at (spec.type_at n) tokens.now)) }
    ensures any { Gives (λ x. (x.0, x.1.now)) result (cut (most frames_of_type) room (spec.atypes_at any_type_at tokens.now)) }
    ensures shorter { IfOk result (λ x. length x.1.now ≤ length tokens.now) }
{
    read_atypes(alloc, room, tokens)
}

// type ::= btype [`->` type]
#[cycle(types)]
fn read_type(
    alloc: Global,
    room: usize,
    tokens: &[Lexeme],
) -> Result<(Option<Written>, &[Lexeme]), Unread>
    ensures read { Gives (λ x. (x.0, x.1.now)) result (cut frames_of_type room (any_type_at tokens.now)) }
    ensures shorter { IfOk result (λ x. length x.1.now < length tokens.now) }
{
    let mut sides = Some(Items::new(alloc));
    let mut left = room;
    let mut rest = tokens;
    for _turn in 0..tokens.len() {
        let (side, behind) = btype(alloc, left, rest)?;
        if !sees(behind, Mark::Arrow) {
            return Ok((behind_sides(alloc, sides, side)?, behind));
        }
        sides = side_behind(left, sides, side)?;
        left = one_less(left);
        rest = rest_of(behind);
    }
    Err(Unread::Refused(NotSpelled))
}

// The types before the arrows, with one more, where there is room for its arrow.
fn side_behind(
    room: usize,
    sides: Option<Items<Written>>,
    side: Option<Written>,
) -> Result<Option<Items<Written>>, OutOfMemory>
    ensures { IfOk result (λ made. made ≡ keep.side_behind room sides side) }
{
    if room == 0 {
        return Ok(None);
    }
    added(sides, side)
}

fn one_less(room: usize) -> usize
    ensures { result ≡ pred room }
{
    if room == 0 { 0 } else { room - 1 }
}

// A type behind arrows.
fn behind_sides(
    alloc: Global,
    sides: Option<Items<Written>>,
    last: Option<Written>,
) -> Result<Option<Written>, OutOfMemory>
    ensures { IfOk result (λ made. made ≡ given.both given.arrowed sides last) }
{
    match (sides, last) {
        (Some(sides), Some(last)) => Ok(Some(arrowed(alloc, sides, last)?)),
        _ => Ok(None),
    }
}

fn arrowed(alloc: Global, mut sides: Items<Written>, last: Written) -> Result<Written, OutOfMemory>
    ensures { IfOk result (λ made. made ≡ given.arrowed sides last) }
{
    let mut made = last;
    while let Some(side) = sides.pop() {
        let from = Boxed::new(alloc, side)?;
        let to = Boxed::new(alloc, made)?;
        made = Written::Fun(from, to);
    }
    Ok(made)
}

// btype ::= atype+
#[cycle(types)]
#[tactic(auto, unfolding(crate::specs::Kept::btype_kept))]
fn btype(
    alloc: Global,
    room: usize,
    tokens: &[Lexeme],
) -> Result<(Option<Written>, &[Lexeme]), Unread>
    ensures read { Gives (λ x. (x.0, x.1.now)) result (keep.btype_kept room tokens.now) }
    ensures shorter { IfOk result (λ x. length x.1.now < length tokens.now) }
{
    let (head, rest) = read_atype(alloc, room, tokens)?;
    let (parts, rest) = read_atypes(alloc, room, rest)?;
    Ok((applied(alloc, head, parts)?, rest))
}

// A type without arguments is itself.
fn applied(
    alloc: Global,
    head: Option<Written>,
    parts: Option<Items<Written>>,
) -> Result<Option<Written>, OutOfMemory>
    ensures { IfOk result (λ made. made ≡ given.both grammar.applied_type head parts) }
{
    match (head, parts) {
        (Some(head), Some(parts)) => Ok(Some(apply(alloc, head, parts)?)),
        _ => Ok(None),
    }
}

fn apply(alloc: Global, head: Written, parts: Items<Written>) -> Result<Written, OutOfMemory>
    ensures { IfOk result (λ made. made ≡ grammar.applied_type head parts) }
{
    if parts.is_empty() {
        return Ok(head);
    }
    Ok(Written::Apply(Boxed::new(alloc, head)?, parts))
}

pub fn begins_atype(tokens: &[Lexeme]) -> bool
    ensures { result ≡ spec.begins_atype tokens.now }
{
    match tokens {
        [Lexeme::Variable(_, _), ..] | [Lexeme::Constructor(_, _), ..] => true,
        _ => sees(tokens, Mark::Opens),
    }
}

// atype*
#[cycle(types)]
#[tactic(auto, unfolding(rw_parser_reading::specs::ReadTypes::atypes_at))]
fn read_atypes(
    alloc: Global,
    room: usize,
    tokens: &[Lexeme],
) -> Result<(Option<Items<Written>>, &[Lexeme]), Unread>
    ensures read { Gives (λ x. (x.0, x.1.now)) result (cut (most frames_of_type) room (spec.atypes_at any_type_at tokens.now)) }
    ensures shorter { IfOk result (λ x. length x.1.now ≤ length tokens.now) }
{
    let mut all = Some(Items::new(alloc));
    let mut rest = tokens;
    for _turn in 0..tokens.len() {
        if !begins_atype(rest) {
            break;
        }
        let (one, behind) = read_atype(alloc, room, rest)?;
        all = added(all, one)?;
        rest = behind;
    }
    Ok((all, rest))
}

// atype ::= Con | var | `(` `)` | `(` type (`,` type)* `)`
#[cycle(types)]
fn read_atype(
    alloc: Global,
    room: usize,
    tokens: &[Lexeme],
) -> Result<(Option<Written>, &[Lexeme]), Unread>
    ensures read { Gives (λ x. (x.0, x.1.now)) result (keep.atype_kept room tokens.now) }
    ensures shorter { IfOk result (λ x. length x.1.now < length tokens.now) }
{
    match tokens {
        [Lexeme::Mark(_, mark), rest @ ..] => {
            if same_mark(*mark, Mark::Opens) {
                type_group(alloc, room, rest)
            } else {
                Err(Unread::Refused(NotSpelled))
            }
        }
        [Lexeme::Variable(_, name), rest @ ..] => {
            Ok((Some(Written::Var(name.copied(alloc)?)), rest))
        }
        [Lexeme::Constructor(_, name), rest @ ..] => {
            Ok((Some(Written::Con(name.copied(alloc)?)), rest))
        }
        _ => Err(Unread::Refused(NotSpelled)),
    }
}

// Behind an opening parenthesis: `)` | type (`,` type)* `)`
#[cycle(types)]
#[tactic(auto, unfolding(crate::specs::Kept::type_group_kept))]
fn type_group(
    alloc: Global,
    room: usize,
    tokens: &[Lexeme],
) -> Result<(Option<Written>, &[Lexeme]), Unread>
    ensures read { Gives (λ x. (x.0, x.1.now)) result (keep.type_group_kept room tokens.now) }
    ensures shorter { IfOk result (λ x. length x.1.now ≤ length tokens.now) }
{
    if sees(tokens, Mark::Closes) {
        return Ok((Some(Written::Tuple(Items::new(alloc))), rest_of(tokens)));
    }
    some_types(alloc, room, tokens)
}

// type (`,` type)* `)`, at most 8
#[cycle(types)]
#[tactic(auto, unfolding(crate::specs::Kept::some_types_kept))]
fn some_types(
    alloc: Global,
    room: usize,
    tokens: &[Lexeme],
) -> Result<(Option<Written>, &[Lexeme]), Unread>
    ensures read { Gives (λ x. (x.0, x.1.now)) result (keep.some_types_kept room tokens.now) }
    ensures shorter { IfOk result (λ x. length x.1.now ≤ length tokens.now) }
{
    let (count, parts, rest) = types(alloc, room, tokens)?;
    let rest = after(rest, Mark::Closes)?;
    if !few(count) {
        return Err(Unread::Refused(NotSpelled));
    }
    Ok((regrouped(parts), rest))
}

fn regrouped(parts: Option<Items<Written>>) -> Option<Written>
    ensures { result ≡ keep.regrouped parts }
{
    match parts {
        Some(parts) => Some(grouped(parts)),
        None => None,
    }
}

// One type in parentheses is itself.
fn grouped(mut parts: Items<Written>) -> Written
    ensures { result ≡ grammar.grouped_type parts }
{
    if parts.len() == 1 {
        parts.remove(0)
    } else {
        Written::Tuple(parts)
    }
}

// type (`,` type)*: how many, and the types
#[cycle(types)]
fn types(
    alloc: Global,
    room: usize,
    tokens: &[Lexeme],
) -> Result<(usize, Option<Items<Written>>, &[Lexeme]), Unread>
    ensures read { Gives (λ x. (x.0, (x.1, x.2.now))) result (given.counted frames_of_type room (separated_at m.Comma any_type_at (length tokens.now) tokens.now)) }
    ensures shorter { IfOk result (λ x. length x.2.now < length tokens.now) }
{
    let mut all = Some(Items::new(alloc));
    let mut rest = tokens;
    for turn in 0..tokens.len() {
        let (one, behind) = read_type(alloc, room, rest)?;
        all = added(all, one)?;
        if !sees(behind, Mark::Comma) {
            return Ok((turn + 1, all, behind));
        }
        rest = rest_of(behind);
    }
    Err(Unread::Refused(NotSpelled))
}
