// Expressions, by descent with one token of lookahead. The grammar rule stands above each function.
ghost use Rattle.std.specs.Prelude.{◌≡◌, length};
ghost use Rattle.rw_base.specs.Answers.{Gives};
ghost use Rattle.vh_tree_reading.specs.Read.{separated_at};
ghost use Rattle.vh_tree_reading.specs.Read as spec;
ghost use Rattle.vh_tree.specs.Grammar.{join_of};
ghost use Rattle.vh_tree.specs.declared.token.Mark.TheVariants as m;

use crate::token::{
    after, begins_bits, begins_id, begins_number, bits, name, number, rest_of, sees,
};
use rw_base::{NotSpelled, Unread};
use sqlite_items::Items;
use std::alloc::Global;
use vh_tree::{Ident, Mark, Token, VExpr};

// What stands in a call's parentheses, with at most so many levels there, the call's own among them.
#[cycle(exprs)]
#[tactic(auto, unfolding(vh_tree_reading::specs::Read::args_at))]
pub fn args(
    alloc: Global,
    levels: usize,
    tokens: &[Token],
) -> Result<(Items<VExpr>, &[Token]), Unread>
    ensures { Gives (λ x. (x.0, x.1.now)) result (spec.args_at levels tokens.now) }
{
    if levels == 0 {
        return Err(Unread::Refused(NotSpelled));
    }
    exprs(alloc, levels - 1, tokens)
}

// expr (`,` expr)*
#[cycle(exprs)]
fn exprs(alloc: Global, levels: usize, tokens: &[Token]) -> Result<(Items<VExpr>, &[Token]), Unread>
    ensures { Gives (λ x. (x.0, x.1.now)) result (separated_at m.Comma (spec.expr_at (spec.args_at levels)) (length tokens.now) tokens.now) }
{
    let mut all = Items::new(alloc);
    let mut rest = tokens;
    for _turn in 0..tokens.len() {
        let (one, behind) = expr(alloc, levels, rest)?;
        all.push(one)?;
        if !sees(behind, Mark::Comma) {
            return Ok((all, behind));
        }
        rest = rest_of(behind);
    }
    Err(Unread::Refused(NotSpelled))
}

// expr ::= term (`&` term)*, with at most so many levels inside
#[cycle(exprs)]
#[tactic(auto, unfolding(vh_tree_reading::specs::Read::expr_at))]
pub fn expr(alloc: Global, levels: usize, tokens: &[Token]) -> Result<(VExpr, &[Token]), Unread>
    ensures { Gives (λ x. (x.0, x.1.now)) result (spec.expr_at (spec.args_at levels) tokens.now) }
{
    let (parts, rest) = terms(alloc, levels, tokens)?;
    Ok((join(parts), rest))
}

// A join of one part is the part.
fn join(mut parts: Items<VExpr>) -> VExpr
    ensures { result ≡ join_of parts }
{
    if parts.len() == 1 {
        parts.remove(0)
    } else {
        VExpr::Join(parts)
    }
}

// term (`&` term)*
#[cycle(exprs)]
fn terms(alloc: Global, levels: usize, tokens: &[Token]) -> Result<(Items<VExpr>, &[Token]), Unread>
    ensures { Gives (λ x. (x.0, x.1.now)) result (separated_at m.Amp (spec.term_at (spec.args_at levels)) (length tokens.now) tokens.now) }
{
    let mut all = Items::new(alloc);
    let mut rest = tokens;
    for _turn in 0..tokens.len() {
        let (one, behind) = term(alloc, levels, rest)?;
        all.push(one)?;
        if !sees(behind, Mark::Amp) {
            return Ok((all, behind));
        }
        rest = rest_of(behind);
    }
    Err(Unread::Refused(NotSpelled))
}

// term ::= ref | string
#[cycle(exprs)]
#[tactic(auto, unfolding(vh_tree_reading::specs::Read::term_at))]
fn term(alloc: Global, levels: usize, tokens: &[Token]) -> Result<(VExpr, &[Token]), Unread>
    ensures { Gives (λ x. (x.0, x.1.now)) result (spec.term_at (spec.args_at levels) tokens.now) }
{
    if begins_bits(tokens) {
        let (bits, rest) = bits(alloc, tokens)?;
        return Ok((VExpr::Literal(bits), rest));
    }
    reference(alloc, levels, tokens)
}

// ref ::= name | name `(` number `downto` number `)` | id `(` expr (`,` expr)* `)`
#[cycle(exprs)]
#[tactic(auto, unfolding(vh_tree_reading::specs::Read::ref_at))]
pub fn reference(
    alloc: Global,
    levels: usize,
    tokens: &[Token],
) -> Result<(VExpr, &[Token]), Unread>
    ensures { Gives (λ x. (x.0, x.1.now)) result (spec.ref_at (spec.args_at levels) tokens.now) }
{
    let (name, rest) = name(alloc, tokens)?;
    if sees(rest, Mark::Opens) {
        opened(alloc, levels, begins_id(tokens), name, rest_of(rest))
    } else {
        Ok((VExpr::Name(name), rest))
    }
}

// A slice or a call, behind its opening parenthesis. Only a declared name can be called.
#[cycle(exprs)]
#[tactic(auto, unfolding(vh_tree_reading::specs::Read::opened_at))]
fn opened(
    alloc: Global,
    levels: usize,
    declared: bool,
    name: Ident,
    tokens: &[Token],
) -> Result<(VExpr, &[Token]), Unread>
    ensures { Gives (λ x. (x.0, x.1.now)) result (spec.opened_at (spec.args_at levels) declared name tokens.now) }
{
    if begins_number(tokens) {
        slice(name, tokens)
    } else if declared {
        call(alloc, levels, name, tokens)
    } else {
        Err(Unread::Refused(NotSpelled))
    }
}

// number `downto` number `)`
#[tactic(auto, unfolding(vh_tree_reading::specs::Read::slice_at))]
fn slice(name: Ident, tokens: &[Token]) -> Result<(VExpr, &[Token]), Unread>
    ensures { Gives (λ x. (x.0, x.1.now)) result (spec.slice_at name tokens.now) }
{
    let (high, rest) = number(tokens)?;
    let rest = after(rest, Mark::Downto)?;
    let (low, rest) = number(rest)?;
    let rest = after(rest, Mark::Closes)?;
    Ok((VExpr::Slice(name, high, low), rest))
}

// expr (`,` expr)* `)`
#[cycle(exprs)]
#[tactic(auto, unfolding(vh_tree_reading::specs::Read::call_at))]
fn call(
    alloc: Global,
    levels: usize,
    name: Ident,
    tokens: &[Token],
) -> Result<(VExpr, &[Token]), Unread>
    ensures { Gives (λ x. (x.0, x.1.now)) result (spec.call_at (spec.args_at levels) name tokens.now) }
{
    let (found, rest) = args(alloc, levels, tokens)?;
    let rest = after(rest, Mark::Closes)?;
    Ok((VExpr::Call(name, found), rest))
}
