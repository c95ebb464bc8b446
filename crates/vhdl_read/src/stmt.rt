// Statements, by descent with one token of lookahead. The grammar rule stands above each function.
ghost use Rattle.std.specs.Prelude.{◌≡◌, length};
ghost use Rattle.rw_base.specs.Answers.{Gives};
ghost use Rattle.vh_tree_reading.specs.Read.{separated_at};
ghost use Rattle.vh_tree_reading.specs.Read as spec;
ghost use Rattle.vh_tree.specs.VToken as mark;
ghost use Rattle.vh_tree.specs.declared.token.Mark.TheVariants as m;

use crate::expr::{expr, reference};
use crate::token::{after, bits, rest_of, sees};
use rw_base::{NotSpelled, Unread};
use sqlite_items::Items;
use std::alloc::Global;
use vh_tree::{Branch, Ident, Mark, Side, Test, Token, VStmt};

fn assign_mark(at: Side) -> Mark
    ensures { result ≡ mark.assign_mark at }
{
    match at {
        Side::Function => Mark::Assign,
        Side::Process => Mark::Drive,
    }
}

// id, and in a process `outp`
fn target(alloc: Global, at: Side, tokens: &[Token]) -> Result<(Ident, &[Token]), Unread>
    ensures { Gives (λ x. (x.0, x.1.now)) result (spec.target_at at tokens.now) }
{
    match (at, tokens) {
        (_, [Token::Id(name), rest @ ..]) => Ok((name.copied(alloc)?, rest)),
        (Side::Process, [Token::Mark(Mark::Outp), rest @ ..]) => {
            Ok((Ident::from_slice(alloc, b"outp")?, rest))
        }
        _ => Err(Unread::Refused(NotSpelled)),
    }
}

fn begins_target(at: Side, tokens: &[Token]) -> bool
    ensures { result ≡ spec.begins_target at tokens.now }
{
    match (at, tokens) {
        (_, [Token::Id(_), ..]) => true,
        (Side::Process, [Token::Mark(Mark::Outp), ..]) => true,
        _ => false,
    }
}

fn begins_stmt(at: Side, tokens: &[Token]) -> bool
    ensures { result ≡ spec.begins_stmt at tokens.now }
{
    sees(tokens, Mark::If) || begins_target(at, tokens)
}

// stmt*, with at most so many levels inside
#[cycle(stmts)]
#[tactic(auto, unfolding(vh_tree_reading::specs::Read::stmts_at))]
pub fn stmts(
    alloc: Global,
    at: Side,
    levels: usize,
    tokens: &[Token],
) -> Result<(Items<VStmt>, &[Token]), Unread>
    ensures { Gives (λ x. (x.0, x.1.now)) result (spec.stmts_at at (spec.args_at levels) (spec.choice_levels at levels) tokens.now) }
{
    let mut all = Items::new(alloc);
    let mut rest = tokens;
    for _turn in 0..tokens.len() {
        if !begins_stmt(at, rest) {
            break;
        }
        let (one, behind) = stmt(alloc, at, levels, rest)?;
        all.push(one)?;
        rest = behind;
    }
    Ok((all, rest))
}

// stmt ::= assignment | `if` choice
#[cycle(stmts)]
#[tactic(auto, unfolding(vh_tree_reading::specs::Read::stmt_at))]
fn stmt(
    alloc: Global,
    at: Side,
    levels: usize,
    tokens: &[Token],
) -> Result<(VStmt, &[Token]), Unread>
    ensures { Gives (λ x. (x.0, x.1.now)) result (spec.stmt_at at (spec.args_at levels) (spec.choice_levels at levels) tokens.now) }
{
    if sees(tokens, Mark::If) {
        let (branches, other, rest) = choice(alloc, at, levels, rest_of(tokens))?;
        Ok((VStmt::If(branches, other), rest))
    } else {
        assignment(alloc, at, levels, tokens)
    }
}

// assignment ::= target `:=` expr `;` in a function, target `<=` expr `;` in a process
#[tactic(auto, unfolding(vh_tree_reading::specs::Read::assign_at))]
fn assignment(
    alloc: Global,
    at: Side,
    levels: usize,
    tokens: &[Token],
) -> Result<(VStmt, &[Token]), Unread>
    ensures { Gives (λ x. (x.0, x.1.now)) result (spec.assign_at at (spec.args_at levels) (spec.choice_levels at levels) tokens.now) }
{
    let (name, rest) = target(alloc, at, tokens)?;
    let rest = after(rest, assign_mark(at))?;
    let (value, rest) = expr(alloc, levels, rest)?;
    let rest = after(rest, Mark::Semicolon)?;
    Ok((VStmt::Assign(name, value), rest))
}

// What stands behind an `if`, with at most so many levels there, its own among them.
#[cycle(stmts)]
#[tactic(auto, unfolding(vh_tree_reading::specs::Read::choice_levels))]
fn choice(
    alloc: Global,
    at: Side,
    levels: usize,
    tokens: &[Token],
) -> Result<(Items<Branch>, Items<VStmt>, &[Token]), Unread>
    ensures { Gives (λ x. ((x.0, x.1), x.2.now)) result (spec.choice_levels at levels tokens.now) }
{
    if levels == 0 {
        return Err(Unread::Refused(NotSpelled));
    }
    choice_within(alloc, at, levels - 1, tokens)
}

// choice ::= branch (`elsif` branch)* [`else` stmt*] `end if ;`
#[cycle(stmts)]
#[tactic(auto, unfolding(vh_tree_reading::specs::Read::choice_at))]
fn choice_within(
    alloc: Global,
    at: Side,
    levels: usize,
    tokens: &[Token],
) -> Result<(Items<Branch>, Items<VStmt>, &[Token]), Unread>
    ensures { Gives (λ x. ((x.0, x.1), x.2.now)) result (spec.choice_at (spec.args_at levels) (spec.stmts_at at (spec.args_at levels) (spec.choice_levels at levels)) tokens.now) }
{
    let (branches, rest) = branches(alloc, at, levels, tokens)?;
    let (other, rest) = other(alloc, at, levels, rest)?;
    let rest = after(rest, Mark::End)?;
    let rest = after(rest, Mark::If)?;
    let rest = after(rest, Mark::Semicolon)?;
    Ok((branches, other, rest))
}

// [`else` stmt*]
#[cycle(stmts)]
#[tactic(auto, unfolding(vh_tree_reading::specs::Read::else_at))]
fn other(
    alloc: Global,
    at: Side,
    levels: usize,
    tokens: &[Token],
) -> Result<(Items<VStmt>, &[Token]), Unread>
    ensures { Gives (λ x. (x.0, x.1.now)) result (spec.else_at (spec.args_at levels) (spec.stmts_at at (spec.args_at levels) (spec.choice_levels at levels)) tokens.now) }
{
    if sees(tokens, Mark::Else) {
        stmts(alloc, at, levels, rest_of(tokens))
    } else {
        Ok((Items::new(alloc), tokens))
    }
}

// branch (`elsif` branch)*
#[cycle(stmts)]
fn branches(
    alloc: Global,
    at: Side,
    levels: usize,
    tokens: &[Token],
) -> Result<(Items<Branch>, &[Token]), Unread>
    ensures { Gives (λ x. (x.0, x.1.now)) result (separated_at m.Elsif (spec.branch_at (spec.args_at levels) (spec.stmts_at at (spec.args_at levels) (spec.choice_levels at levels))) (length tokens.now) tokens.now) }
{
    let mut all = Items::new(alloc);
    let mut rest = tokens;
    for _turn in 0..tokens.len() {
        let (one, behind) = branch(alloc, at, levels, rest)?;
        all.push(one)?;
        if !sees(behind, Mark::Elsif) {
            return Ok((all, behind));
        }
        rest = rest_of(behind);
    }
    Err(Unread::Refused(NotSpelled))
}

// branch ::= test (`and` test)* `then` stmt*
#[cycle(stmts)]
#[tactic(auto, unfolding(vh_tree_reading::specs::Read::branch_at))]
fn branch(
    alloc: Global,
    at: Side,
    levels: usize,
    tokens: &[Token],
) -> Result<(Branch, &[Token]), Unread>
    ensures { Gives (λ x. (x.0, x.1.now)) result (spec.branch_at (spec.args_at levels) (spec.stmts_at at (spec.args_at levels) (spec.choice_levels at levels)) tokens.now) }
{
    let (tests, rest) = tests(alloc, levels, tokens)?;
    let rest = after(rest, Mark::Then)?;
    let (body, rest) = stmts(alloc, at, levels, rest)?;
    Ok((Branch { tests, body }, rest))
}

// test (`and` test)*
fn tests(alloc: Global, levels: usize, tokens: &[Token]) -> Result<(Items<Test>, &[Token]), Unread>
    ensures { Gives (λ x. (x.0, x.1.now)) result (separated_at m.And (spec.test_at (spec.args_at levels)) (length tokens.now) tokens.now) }
{
    let mut all = Items::new(alloc);
    let mut rest = tokens;
    for _turn in 0..tokens.len() {
        let (one, behind) = test(alloc, levels, rest)?;
        all.push(one)?;
        if !sees(behind, Mark::And) {
            return Ok((all, behind));
        }
        rest = rest_of(behind);
    }
    Err(Unread::Refused(NotSpelled))
}

// test ::= ref `=` string | `rising_edge ( clk )` | `rst = '1'`
#[tactic(auto, unfolding(vh_tree_reading::specs::Read::test_at))]
fn test(alloc: Global, levels: usize, tokens: &[Token]) -> Result<(Test, &[Token]), Unread>
    ensures { Gives (λ x. (x.0, x.1.now)) result (spec.test_at (spec.args_at levels) tokens.now) }
{
    if sees(tokens, Mark::RisingEdge) {
        rising(tokens)
    } else if sees(tokens, Mark::Rst) {
        reset(tokens)
    } else {
        equal(alloc, levels, tokens)
    }
}

// `rising_edge ( clk )`
#[tactic(auto, unfolding(vh_tree_reading::specs::Read::rising_at))]
fn rising(tokens: &[Token]) -> Result<(Test, &[Token]), Unread>
    ensures { Gives (λ x. (x.0, x.1.now)) result (spec.rising_at tokens.now) }
{
    let rest = after(tokens, Mark::RisingEdge)?;
    let rest = after(rest, Mark::Opens)?;
    let rest = after(rest, Mark::Clk)?;
    let rest = after(rest, Mark::Closes)?;
    Ok((Test::Rising, rest))
}

// `rst = '1'`
#[tactic(auto, unfolding(vh_tree_reading::specs::Read::reset_at))]
fn reset(tokens: &[Token]) -> Result<(Test, &[Token]), Unread>
    ensures { Gives (λ x. (x.0, x.1.now)) result (spec.reset_at tokens.now) }
{
    let rest = after(tokens, Mark::Rst)?;
    let rest = after(rest, Mark::Equal)?;
    let rest = after(rest, Mark::High)?;
    Ok((Test::Reset, rest))
}

// ref `=` string
#[tactic(auto, unfolding(vh_tree_reading::specs::Read::equal_at))]
fn equal(alloc: Global, levels: usize, tokens: &[Token]) -> Result<(Test, &[Token]), Unread>
    ensures { Gives (λ x. (x.0, x.1.now)) result (spec.equal_at (spec.args_at levels) tokens.now) }
{
    let (left, rest) = reference(alloc, levels, tokens)?;
    let rest = after(rest, Mark::Equal)?;
    let (right, rest) = bits(alloc, rest)?;
    Ok((Test::Equal(left, right), rest))
}
