// Processes at the end of a text.
ghost use Rattle.std.specs.Prelude.{◌≡◌, ◌++◌, OnOk, map};
ghost use Rattle.vh_tree.specs.declared.token.Mark.TheVariants as m;
ghost use Rattle.vh_tree.specs.Canonical.{joined, names_tokens, process_tokens, spelled};

use crate::stmt::push_stmts;
use crate::text::{push_mark, push_marks, push_name};
use rw_base::OutOfMemory;
use vh_tree::{Ident, Mark, Process, Side};

/// Appends names with `,` between two.
fn push_names(text: &mut Vec<u8>, names: &[Ident]) -> Result<(), OutOfMemory>
    ensures { OnOk result (text.new.items ≡ text.old.items ++ spelled (names_tokens names.now)) }
{
    if let [first, others @ ..] = names {
        push_name(text, first)?;
        for name in others {
            push_mark(text, Mark::Comma)?;
            push_name(text, name)?;
        }
    }
    Ok(())
}

/// Appends a process.
fn push_process(text: &mut Vec<u8>, process: &Process) -> Result<(), OutOfMemory>
    ensures { OnOk result (text.new.items ≡ text.old.items ++ spelled (process_tokens process.now)) }
{
    push_marks(text, &[Mark::Process, Mark::Opens])?;
    push_names(text, process.sensitive.as_slice())?;
    push_marks(text, &[Mark::Closes, Mark::Begin])?;
    push_stmts(text, Side::Process, process.body.as_slice())?;
    push_marks(text, &[Mark::End, Mark::Process, Mark::Semicolon])
}

/// Appends processes.
pub fn push_processes(text: &mut Vec<u8>, processes: &[Process]) -> Result<(), OutOfMemory>
    ensures { OnOk result (text.new.items ≡ text.old.items ++ spelled (joined (map process_tokens processes.now))) }
{
    for process in processes {
        push_process(text, process)?;
    }
    Ok(())
}
