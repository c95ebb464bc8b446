// Processes. The grammar rule stands above each function.
ghost use Rattle.std.specs.Prelude.{◌≡◌};
ghost use Rattle.vh_tree_reading.specs.ReadDesign as spec;
ghost use Rattle.rw_base.specs.Answers.{Gives};

use crate::stmt::stmts;
use crate::token::{after_all, rest_of, sees};
use rw_base::{NotSpelled, Unread};
use sqlite_items::Items;
use std::alloc::Global;
use vh_tree::{Ident, Mark, Process, Side, Token};

// sens ::= id | `clk` | `rst` | `inp`
#[tactic(auto, unfolding(vh_tree_reading::specs::ReadDesign::sensitive_at))]
fn sensitive(alloc: Global, tokens: &[Token]) -> Result<(Ident, &[Token]), Unread>
    ensures { Gives (λ x. (x.0, x.1.now)) result (spec.sensitive_at tokens.now) }
{
    match tokens {
        [Token::Id(name), rest @ ..] => Ok((name.copied(alloc)?, rest)),
        [Token::Mark(Mark::Clk), rest @ ..] => Ok((Ident::from_slice(alloc, b"clk")?, rest)),
        [Token::Mark(Mark::Rst), rest @ ..] => Ok((Ident::from_slice(alloc, b"rst")?, rest)),
        [Token::Mark(Mark::Inp), rest @ ..] => Ok((Ident::from_slice(alloc, b"inp")?, rest)),
        _ => Err(Unread::Refused(NotSpelled)),
    }
}

// sens (`,` sens)*
fn names(alloc: Global, tokens: &[Token]) -> Result<(Items<Ident>, &[Token]), Unread>
    ensures { Gives (λ x. (x.0, x.1.now)) result (spec.names_at tokens.now) }
{
    let mut all = Items::new(alloc);
    let mut rest = tokens;
    for _turn in 0..tokens.len() {
        let (one, behind) = sensitive(alloc, rest)?;
        all.push(one)?;
        if !sees(behind, Mark::Comma) {
            return Ok((all, behind));
        }
        rest = rest_of(behind);
    }
    Err(Unread::Refused(NotSpelled))
}

// process ::= `process (` sens (`,` sens)* `) begin` stmt* `end process ;`
#[tactic(auto, unfolding(vh_tree_reading::specs::ReadDesign::process_at))]
fn process(alloc: Global, levels: usize, tokens: &[Token]) -> Result<(Process, &[Token]), Unread>
    ensures { Gives (λ x. (x.0, x.1.now)) result (spec.process_at levels tokens.now) }
{
    let rest = after_all(tokens, &[Mark::Process, Mark::Opens])?;
    let (sensitive, rest) = names(alloc, rest)?;
    let rest = after_all(rest, &[Mark::Closes, Mark::Begin])?;
    let (body, rest) = stmts(alloc, Side::Process, levels, rest)?;
    let rest = after_all(rest, &[Mark::End, Mark::Process, Mark::Semicolon])?;
    Ok((Process { sensitive, body }, rest))
}

// process*
pub fn processes(
    alloc: Global,
    levels: usize,
    tokens: &[Token],
) -> Result<(Items<Process>, &[Token]), Unread>
    ensures { Gives (λ x. (x.0, x.1.now)) result (spec.processes_at levels tokens.now) }
{
    let mut all = Items::new(alloc);
    let mut rest = tokens;
    for _turn in 0..tokens.len() {
        if !sees(rest, Mark::Process) {
            break;
        }
        let (one, behind) = process(alloc, levels, rest)?;
        all.push(one)?;
        rest = behind;
    }
    Ok((all, rest))
}
