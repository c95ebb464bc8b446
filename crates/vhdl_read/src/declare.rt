// Declarations of signals, variables and parameters. The grammar rule stands above each function.
ghost use Rattle.std.specs.Prelude.{◌≡◌, IfOk, suc};
ghost use Rattle.vh_tree_reading.specs.ReadDesign as spec;
ghost use Rattle.rw_base.specs.Answers.{Gives};

use crate::token::{after, after_all, id, number, rest_of, sees};
use rw_base::{NotSpelled, OutOfMemory, Unread};
use sqlite_items::Items;
use std::alloc::Global;
use vh_tree::{Ident, Mark, Token, Var};

// `0 )`
#[tactic(auto, unfolding(vh_tree_reading::specs::ReadDesign::zero_at))]
fn zero(tokens: &[Token]) -> Result<&[Token], Unread>
    ensures { Gives (λ r. r.now) result (spec.zero_at tokens.now) }
{
    let (low, rest) = number(tokens)?;
    let rest = after(rest, Mark::Closes)?;
    if low == 0 {
        Ok(rest)
    } else {
        Err(Unread::Refused(NotSpelled))
    }
}

// One wire more than the number. Numbers of a text have 31 bits at most, so that there is always room for it.
fn one_more(high: u32) -> Result<u32, OutOfMemory>
    ensures { IfOk result (λ width. width ≡ suc high) }
{
    match high.checked_add(1) {
        Some(width) => Ok(width),
        None => Err(OutOfMemory),
    }
}

// vec ::= `std_logic_vector (` number `downto 0 )`
#[tactic(auto, unfolding(vh_tree_reading::specs::ReadDesign::vec_at))]
pub fn vec(tokens: &[Token]) -> Result<(u32, &[Token]), Unread>
    ensures { Gives (λ x. (x.0, x.1.now)) result (spec.vec_at tokens.now) }
{
    let rest = after_all(tokens, &[Mark::StdLogicVector, Mark::Opens])?;
    let (high, rest) = number(rest)?;
    let rest = after(rest, Mark::Downto)?;
    let rest = zero(rest)?;
    Ok((one_more(high)?, rest))
}

// `signal` or `variable`, and id `:` vec `;`
#[tactic(auto, unfolding(vh_tree_reading::specs::ReadDesign::var_at))]
pub fn var(alloc: Global, keyword: Mark, tokens: &[Token]) -> Result<(Var, &[Token]), Unread>
    ensures { Gives (λ x. (x.0, x.1.now)) result (spec.var_at keyword tokens.now) }
{
    let rest = after(tokens, keyword)?;
    let (name, rest) = id(alloc, rest)?;
    let rest = after(rest, Mark::Colon)?;
    let (width, rest) = vec(rest)?;
    let rest = after(rest, Mark::Semicolon)?;
    Ok((Var { name, width }, rest))
}

// variable*
fn vars(alloc: Global, tokens: &[Token]) -> Result<(Items<Var>, &[Token]), Unread>
    ensures { Gives (λ x. (x.0, x.1.now)) result (spec.vars_at tokens.now) }
{
    let mut all = Items::new(alloc);
    let mut rest = tokens;
    for _turn in 0..tokens.len() {
        if !sees(rest, Mark::Variable) {
            break;
        }
        let (one, behind) = var(alloc, Mark::Variable, rest)?;
        all.push(one)?;
        rest = behind;
    }
    Ok((all, rest))
}

// param ::= id `: std_logic_vector`
#[tactic(auto, unfolding(vh_tree_reading::specs::ReadDesign::param_at))]
fn param(alloc: Global, tokens: &[Token]) -> Result<(Ident, &[Token]), Unread>
    ensures { Gives (λ x. (x.0, x.1.now)) result (spec.param_at tokens.now) }
{
    let (name, rest) = id(alloc, tokens)?;
    let rest = after_all(rest, &[Mark::Colon, Mark::StdLogicVector])?;
    Ok((name, rest))
}

// param (`;` param)*
fn param_list(alloc: Global, tokens: &[Token]) -> Result<(Items<Ident>, &[Token]), Unread>
    ensures { Gives (λ x. (x.0, x.1.now)) result (spec.param_list_at tokens.now) }
{
    let mut all = Items::new(alloc);
    let mut rest = tokens;
    for _turn in 0..tokens.len() {
        let (one, behind) = param(alloc, rest)?;
        all.push(one)?;
        if !sees(behind, Mark::Semicolon) {
            return Ok((all, behind));
        }
        rest = rest_of(behind);
    }
    Err(Unread::Refused(NotSpelled))
}

// [`(` param (`;` param)* `)`]
#[tactic(auto, unfolding(vh_tree_reading::specs::ReadDesign::params_at))]
fn params(alloc: Global, tokens: &[Token]) -> Result<(Items<Ident>, &[Token]), Unread>
    ensures { Gives (λ x. (x.0, x.1.now)) result (spec.params_at tokens.now) }
{
    if sees(tokens, Mark::Opens) {
        let (names, rest) = param_list(alloc, rest_of(tokens))?;
        let rest = after(rest, Mark::Closes)?;
        Ok((names, rest))
    } else {
        Ok((Items::new(alloc), tokens))
    }
}

// params `return std_logic_vector is` variable* `begin`
#[tactic(auto, unfolding(vh_tree_reading::specs::ReadDesign::head_at))]
pub fn head(alloc: Global, tokens: &[Token]) -> Result<(Items<Ident>, Items<Var>, &[Token]), Unread>
    ensures { Gives (λ x. ((x.0, x.1), x.2.now)) result (spec.head_at tokens.now) }
{
    let (names, rest) = params(alloc, tokens)?;
    let rest = after_all(rest, &[Mark::Return, Mark::StdLogicVector, Mark::Is])?;
    let (declared, rest) = vars(alloc, rest)?;
    let rest = after(rest, Mark::Begin)?;
    Ok((names, declared, rest))
}
