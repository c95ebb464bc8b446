// A whole design at the end of a text.
ghost use Rattle.std.specs.Prelude.{◌≡◌, ◌++◌, OnOk};
ghost use Rattle.vh_tree.specs.Canonical.{design_tokens, head_tokens, spelled};
ghost use Rattle.vh_tree.specs.VToken.{architecture_marks, end_marks, entity_marks, library_marks, marks as marks_of, outp_marks};

use crate::function::{push_items, push_vec};
use crate::process::push_processes;
use crate::text::{push_mark, push_marks};
use rw_base::OutOfMemory;
use vh_tree::{Design, Mark};

/// Appends the library and the package that every text uses.
#[tactic(auto, unfolding(vh_tree::specs::VToken::library_marks))]
fn push_library(text: &mut Vec<u8>) -> Result<(), OutOfMemory>
    ensures { OnOk result (text.new.items ≡ text.old.items ++ spelled (marks_of library_marks)) }
{
    push_marks(text, &[Mark::Library, Mark::Ieee, Mark::Semicolon])?;
    push_marks(
        text,
        &[Mark::Use, Mark::Ieee, Mark::Dot, Mark::StdLogic1164],
    )?;
    push_marks(text, &[Mark::Dot, Mark::All, Mark::Semicolon])
}

/// Appends the entity up to the type of `inp`.
#[tactic(auto, unfolding(vh_tree::specs::VToken::entity_marks))]
fn push_entity(text: &mut Vec<u8>) -> Result<(), OutOfMemory>
    ensures { OnOk result (text.new.items ≡ text.old.items ++ spelled (marks_of entity_marks)) }
{
    push_marks(
        text,
        &[
            Mark::Entity,
            Mark::Rewire,
            Mark::Is,
            Mark::Port,
            Mark::Opens,
        ],
    )?;
    push_marks(
        text,
        &[
            Mark::Clk,
            Mark::Colon,
            Mark::In,
            Mark::StdLogic,
            Mark::Semicolon,
        ],
    )?;
    push_marks(
        text,
        &[
            Mark::Rst,
            Mark::Colon,
            Mark::In,
            Mark::StdLogic,
            Mark::Semicolon,
        ],
    )?;
    push_marks(text, &[Mark::Inp, Mark::Colon, Mark::In])
}

/// Appends what stands between the types of the two ports.
#[tactic(auto, unfolding(vh_tree::specs::VToken::outp_marks))]
fn push_outp(text: &mut Vec<u8>) -> Result<(), OutOfMemory>
    ensures { OnOk result (text.new.items ≡ text.old.items ++ spelled (marks_of outp_marks)) }
{
    push_marks(text, &[Mark::Semicolon, Mark::Outp, Mark::Colon, Mark::Out])
}

/// Appends the end of the entity and the head of the architecture.
#[tactic(auto, unfolding(vh_tree::specs::VToken::architecture_marks))]
fn push_architecture(text: &mut Vec<u8>) -> Result<(), OutOfMemory>
    ensures { OnOk result (text.new.items ≡ text.old.items ++ spelled (marks_of architecture_marks)) }
{
    push_marks(text, &[Mark::Closes, Mark::Semicolon])?;
    push_marks(text, &[Mark::End, Mark::Rewire, Mark::Semicolon])?;
    push_marks(
        text,
        &[
            Mark::Architecture,
            Mark::Behaviour,
            Mark::Of,
            Mark::Rewire,
            Mark::Is,
        ],
    )
}

/// Appends what stands before the declarations.
#[tactic(auto, unfolding(vh_tree::specs::Canonical::head_tokens))]
fn push_head(text: &mut Vec<u8>, inp: u32, outp: u32) -> Result<(), OutOfMemory>
    ensures { OnOk result (text.new.items ≡ text.old.items ++ spelled (head_tokens inp outp)) }
{
    push_library(text)?;
    push_entity(text)?;
    push_vec(text, inp)?;
    push_outp(text)?;
    push_vec(text, outp)?;
    push_architecture(text)
}

/// Appends the end of the architecture.
#[tactic(auto, unfolding(vh_tree::specs::VToken::end_marks))]
fn push_end(text: &mut Vec<u8>) -> Result<(), OutOfMemory>
    ensures { OnOk result (text.new.items ≡ text.old.items ++ spelled (marks_of end_marks)) }
{
    push_marks(text, &[Mark::End, Mark::Behaviour, Mark::Semicolon])
}

/// Appends a design.
pub fn push_design(text: &mut Vec<u8>, design: &Design) -> Result<(), OutOfMemory>
    ensures { OnOk result (text.new.items ≡ text.old.items ++ spelled (design_tokens design.now)) }
{
    push_head(text, design.inp, design.outp)?;
    push_items(text, design.items.as_slice())?;
    push_mark(text, Mark::Begin)?;
    push_processes(text, design.processes.as_slice())?;
    push_end(text)
}
