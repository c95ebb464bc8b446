// A whole design. The grammar rule stands above each function.
ghost use Rattle.std.specs.Prelude.{◌≡◌};
ghost use Rattle.vh_tree.specs.VToken as mark;
ghost use Rattle.vh_tree_reading.specs.ReadDesign as spec;
ghost use Rattle.rw_base.specs.Answers.{Gives};

use crate::declare::vec;
use crate::item::items;
use crate::process::processes;
use crate::token::{after, after_all};
use rw_base::{NotSpelled, Unread};
use std::alloc::Global;
use vh_tree::{Design, Mark, Token};

// So many levels of `if` and calls may stand around one another.
const MAX_LEVELS: usize = 4096;

// The library and the package that every text uses.
#[tactic(auto, unfolding(vh_tree::specs::VToken::library_marks))]
fn after_library(tokens: &[Token]) -> Result<&[Token], Unread>
    ensures { Gives (λ r. r.now) result (spec.after_all mark.library_marks tokens.now) }
{
    after_all(
        tokens,
        &[
            Mark::Library,
            Mark::Ieee,
            Mark::Semicolon,
            Mark::Use,
            Mark::Ieee,
            Mark::Dot,
            Mark::StdLogic1164,
            Mark::Dot,
            Mark::All,
            Mark::Semicolon,
        ],
    )
}

// The entity up to the type of `inp`.
#[tactic(auto, unfolding(vh_tree::specs::VToken::entity_marks))]
fn after_entity(tokens: &[Token]) -> Result<&[Token], Unread>
    ensures { Gives (λ r. r.now) result (spec.after_all mark.entity_marks tokens.now) }
{
    after_all(
        tokens,
        &[
            Mark::Entity,
            Mark::Rewire,
            Mark::Is,
            Mark::Port,
            Mark::Opens,
            Mark::Clk,
            Mark::Colon,
            Mark::In,
            Mark::StdLogic,
            Mark::Semicolon,
            Mark::Rst,
            Mark::Colon,
            Mark::In,
            Mark::StdLogic,
            Mark::Semicolon,
            Mark::Inp,
            Mark::Colon,
            Mark::In,
        ],
    )
}

// From there to the type of `outp`.
#[tactic(auto, unfolding(vh_tree::specs::VToken::outp_marks))]
fn after_outp(tokens: &[Token]) -> Result<&[Token], Unread>
    ensures { Gives (λ r. r.now) result (spec.after_all mark.outp_marks tokens.now) }
{
    after_all(
        tokens,
        &[Mark::Semicolon, Mark::Outp, Mark::Colon, Mark::Out],
    )
}

// The end of the entity and the head of the architecture.
#[tactic(auto, unfolding(vh_tree::specs::VToken::architecture_marks))]
fn after_architecture(tokens: &[Token]) -> Result<&[Token], Unread>
    ensures { Gives (λ r. r.now) result (spec.after_all mark.architecture_marks tokens.now) }
{
    after_all(
        tokens,
        &[
            Mark::Closes,
            Mark::Semicolon,
            Mark::End,
            Mark::Rewire,
            Mark::Semicolon,
            Mark::Architecture,
            Mark::Behaviour,
            Mark::Of,
            Mark::Rewire,
            Mark::Is,
        ],
    )
}

// The end of the architecture.
#[tactic(auto, unfolding(vh_tree::specs::VToken::end_marks))]
fn after_end(tokens: &[Token]) -> Result<&[Token], Unread>
    ensures { Gives (λ r. r.now) result (spec.after_all mark.end_marks tokens.now) }
{
    after_all(tokens, &[Mark::End, Mark::Behaviour, Mark::Semicolon])
}

// What stands before the declarations: the widths of `inp` and `outp`.
#[tactic(auto, unfolding(vh_tree_reading::specs::ReadDesign::ports_at))]
fn ports(tokens: &[Token]) -> Result<(u32, u32, &[Token]), Unread>
    ensures { Gives (λ x. ((x.0, x.1), x.2.now)) result (spec.ports_at tokens.now) }
{
    let rest = after_library(tokens)?;
    let rest = after_entity(rest)?;
    let (inp, rest) = vec(rest)?;
    let rest = after_outp(rest)?;
    let (outp, rest) = vec(rest)?;
    let rest = after_architecture(rest)?;
    Ok((inp, outp, rest))
}

// The library, the entity and the head of the architecture, item* `begin` process* `end behaviour ;`
#[tactic(auto, unfolding(vh_tree_reading::specs::ReadDesign::design_at))]
fn design(alloc: Global, levels: usize, tokens: &[Token]) -> Result<(Design, &[Token]), Unread>
    ensures { Gives (λ x. (x.0, x.1.now)) result (spec.design_at levels tokens.now) }
{
    let (inp, outp, rest) = ports(tokens)?;
    let (items, rest) = items(alloc, levels, rest)?;
    let rest = after(rest, Mark::Begin)?;
    let (processes, rest) = processes(alloc, levels, rest)?;
    let rest = after_end(rest)?;
    Ok((
        Design {
            inp,
            outp,
            items,
            processes,
        },
        rest,
    ))
}

// The design that tokens spell, all of them.
#[tactic(auto, unfolding(vh_tree_reading::specs::ReadDesign::design_of))]
pub fn whole_design(alloc: Global, tokens: &[Token]) -> Result<Design, Unread>
    ensures { Gives (λ x. x) result (spec.design_of tokens.now) }
{
    let (found, rest) = design(alloc, MAX_LEVELS, tokens)?;
    if rest.is_empty() {
        Ok(found)
    } else {
        Err(Unread::Refused(NotSpelled))
    }
}
