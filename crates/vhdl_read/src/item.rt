// Functions and the declarations of the architecture. The grammar rule stands above each function.
ghost use Rattle.std.specs.Prelude.{◌≡◌};
ghost use Rattle.vh_tree_reading.specs.ReadDesign as spec;
ghost use Rattle.rw_base.specs.Answers.{Gives};

use crate::declare::{head, var};
use crate::expr::expr;
use crate::stmt::stmts;
use crate::token::{after, after_all, id, id_in, sees};
use rw_base::{NotSpelled, Unread};
use sqlite_items::Items;
use std::alloc::Global;
use vh_tree::{Function, Ident, Item, Mark, Side, Token, VExpr, VStmt};

// `; end` id `;`, for this id
#[tactic(auto, unfolding(vh_tree_reading::specs::ReadDesign::end_at))]
fn end<'a>(name: &Ident, tokens: &'a [Token]) -> Result<&'a [Token], Unread>
    ensures { Gives (λ r. r.now) result (spec.end_at name.now tokens.now) }
{
    let rest = after_all(tokens, &[Mark::Semicolon, Mark::End])?;
    let (again, rest) = id_in(rest)?;
    let rest = after(rest, Mark::Semicolon)?;
    if again.as_slice() == name.as_slice() {
        Ok(rest)
    } else {
        Err(Unread::Refused(NotSpelled))
    }
}

// stmt* `return` expr `; end` id `;`, for this id
#[tactic(auto, unfolding(vh_tree_reading::specs::ReadDesign::tail_at))]
fn tail<'a>(
    alloc: Global,
    levels: usize,
    name: &Ident,
    tokens: &'a [Token],
) -> Result<(Items<VStmt>, VExpr, &'a [Token]), Unread>
    ensures { Gives (λ x. ((x.0, x.1), x.2.now)) result (spec.tail_at levels name.now tokens.now) }
{
    let (body, rest) = stmts(alloc, Side::Function, levels, tokens)?;
    let rest = after(rest, Mark::Return)?;
    let (value, rest) = expr(alloc, levels, rest)?;
    let rest = end(name, rest)?;
    Ok((body, value, rest))
}

// function ::= `function` id params `return std_logic_vector is` variable* `begin` stmt* `return` expr `; end` id `;`
#[tactic(auto, unfolding(vh_tree_reading::specs::ReadDesign::function_at))]
fn function(alloc: Global, levels: usize, tokens: &[Token]) -> Result<(Function, &[Token]), Unread>
    ensures { Gives (λ x. (x.0, x.1.now)) result (spec.function_at levels tokens.now) }
{
    let rest = after(tokens, Mark::Function)?;
    let (name, rest) = id(alloc, rest)?;
    let (params, vars, rest) = head(alloc, rest)?;
    let (body, result, rest) = tail(alloc, levels, &name, rest)?;
    Ok((
        Function {
            name,
            params,
            vars,
            body,
            result,
        },
        rest,
    ))
}

// item ::= `signal` id `:` vec `;` | function
#[tactic(auto, unfolding(vh_tree_reading::specs::ReadDesign::item_at))]
fn item(alloc: Global, levels: usize, tokens: &[Token]) -> Result<(Item, &[Token]), Unread>
    ensures { Gives (λ x. (x.0, x.1.now)) result (spec.item_at levels tokens.now) }
{
    if sees(tokens, Mark::Signal) {
        let (signal, rest) = var(alloc, Mark::Signal, tokens)?;
        Ok((Item::Signal(signal), rest))
    } else {
        let (defined, rest) = function(alloc, levels, tokens)?;
        Ok((Item::Function(defined), rest))
    }
}

fn begins_item(tokens: &[Token]) -> bool
    ensures { result ≡ spec.begins_item tokens.now }
{
    sees(tokens, Mark::Signal) || sees(tokens, Mark::Function)
}

// item*
pub fn items(
    alloc: Global,
    levels: usize,
    tokens: &[Token],
) -> Result<(Items<Item>, &[Token]), Unread>
    ensures { Gives (λ x. (x.0, x.1.now)) result (spec.items_at levels tokens.now) }
{
    let mut all = Items::new(alloc);
    let mut rest = tokens;
    for _turn in 0..tokens.len() {
        if !begins_item(rest) {
            break;
        }
        let (one, behind) = item(alloc, levels, rest)?;
        all.push(one)?;
        rest = behind;
    }
    Ok((all, rest))
}
