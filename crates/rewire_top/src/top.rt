// The one call of the program.
ghost use Rattle.std.specs.Prelude.{◌≡◌, ◌≢◌, ◌⊎◌, ◌↔◌, map, string_bytes, None};
ghost use Rattle.rw_base.specs.Outside.{Told, Rose, Appended, AppendedPrefix};
ghost use Rattle.rewire_top.specs.Commands.{command_of, PutsText};
ghost use Rattle.rewire_top.specs.Answered.{Answered};
ghost use Rattle.rewire_top.specs.Printed.{line_of};

use crate::Status;
use crate::check::check;
use crate::compile::compile;
use crate::line::make_line;
use crate::simulated::sim;
use crate::words::{Asked, read_words};
use rw_base::{DeviceError, Sink, Store};
use std::alloc::Global;

// What stands where the line could not be made or put for want of memory.
fn after_memory(status: Status) -> Status
    ensures either { (result ≡ Status.OutOfMemory) ⊎ ((result ≡ Status.WriteFault) × (status ≡ Status.WriteFault)) }
    ensures kept { status ≡ Status.WriteFault → result ≡ Status.WriteFault }
{
    match status {
        Status::WriteFault => status,
        _ => Status::OutOfMemory,
    }
}

// Puts the line of a status to `err`, and answers the status that stands then.
fn tell<E: Sink>(alloc: Global, status: Status, err: &mut E) -> Status
    ensures silent { result ≡ Status.Ok → (status ≡ Status.Ok) × (E.written err.new ≡ E.written err.old) }
    ensures same { (result ≡ status) ⊎ (result ≡ Status.OutOfMemory) }
    ensures kept { status ≡ Status.Ok → result ≡ Status.Ok }
    ensures write_fault { status ≡ Status.WriteFault → result ≡ Status.WriteFault }
    ensures line { Told (AppendedPrefix (line_of result)) (E.written err.old) (E.written err.new) }
    ensures whole_line { result ≢ Status.OutOfMemory → result ≢ Status.WriteFault → (Rose (E.faults err.old) (E.faults err.new) → ⊥) → Told (Appended (line_of result)) (E.written err.old) (E.written err.new) }
{
    if status == Status::Ok {
        return status;
    }
    let Ok(line) = make_line(alloc, status) else {
        return after_memory(status);
    };
    match err.put(line.bytes()) {
        Ok(()) => status,
        Err(DeviceError::Failed) => status,
        Err(DeviceError::Memory) => after_memory(status),
    }
}

// What a command answers before its line is put.
fn answer<S: Store, O: Sink>(alloc: Global, words: &[String], store: &mut S, out: &mut O) -> Status
    ensures usage { (result ≡ Status.Usage) ↔ (command_of (map string_bytes words.now) ≡ None) }
    ensures usage_kept { result ≡ Status.Usage → store.new ≡ store.old }
    ensures answered { Answered (command_of (map string_bytes words.now)) (S.sound store.old)
        (Rose (S.load_faults store.old) (S.load_faults store.new)) (Rose (S.save_faults store.old) (S.save_faults store.new)) (Rose (O.faults out.old) (O.faults out.new))
        (S.held store.old) (S.held store.new) (O.written out.old) (O.written out.new) result }
    ensures out_untouched { (PutsText (command_of (map string_bytes words.now)) → ⊥) → out.new ≡ out.old }
{
    match read_words(words) {
        Asked::Nothing => Status::Usage,
        Asked::Check(file) => check(alloc, file, store),
        Asked::Compile(file, target) => compile(alloc, file, target, store),
        Asked::Sim(vhdl, trace) => sim(alloc, vhdl, trace, store, out),
    }
}

/// Does all that the program does: reads the words, loads, compiles and saves or simulates and prints, and puts one
/// line to `err` for each status but `Ok`.
///
/// `words` are the program's words without its name. `check FILE` loads FILE and judges the source by the rules E01 to
/// E16 of the language; nothing is saved and nothing is put to `out`. `compile FILE OUT` loads FILE, and saves the VHDL text
/// of its device under OUT; nothing is put to `out`. `sim VHDL TRACE` loads both, and puts to `out` a line for each reading of
/// `outp`: after the edge of reset, and after that of each line of the trace, which gives the values of `inp` (the subset
/// of IEEE Std 1076-1993 that is read is profiled in `vh_tree`). Other words are `Usage`.
///
/// The answers come in this order: `Usage` by the words; `ReadFault` where a load failed; `Refused` by the first rule that
/// the source breaks, first at this place, in `check`, and by E00 where the source isn't of the explicit form in `compile`; `VhdlRefused` where the text breaks one of V1 to V8, a text of more than 67,108,864 bytes
/// V1; `TraceRefused` at the first line of the trace that is refused; `NotSettled` at the first change that isn't quiet
/// after 64 delta cycles; `WriteFault` where the save or the put failed; `Ok`. Want of memory may come in place of each,
/// as `OutOfMemory`.
pub fn rewire<S: Store, O: Sink, E: Sink>(
    alloc: Global,
    words: &[String],
    store: &mut S,
    out: &mut O,
    err: &mut E,
) -> Status
    // The words: `Usage` exactly where they are no command, and then the store isn't called.
    ensures usage { result ≡ Status.Usage → command_of (map string_bytes words.now) ≡ None }
    ensures usage_where { command_of (map string_bytes words.now) ≡ None → (result ≡ Status.Usage) ⊎ (result ≡ Status.OutOfMemory) }
    ensures usage_kept { command_of (map string_bytes words.now) ≡ None → store.new ≡ store.old }

    // The command: when each other answer comes, what stands afterwards, and what is put to `out`.
    ensures answered { Answered (command_of (map string_bytes words.now)) (S.sound store.old)
        (Rose (S.load_faults store.old) (S.load_faults store.new)) (Rose (S.save_faults store.old) (S.save_faults store.new)) (Rose (O.faults out.old) (O.faults out.new))
        (S.held store.old) (S.held store.new) (O.written out.old) (O.written out.new) result }

    // `out` isn't called, also where it tells nothing, unless the command puts a text to it.
    ensures out_untouched { (PutsText (command_of (map string_bytes words.now)) → ⊥) → out.new ≡ out.old }

    // The line goes to `err`.
    ensures silent { result ≡ Status.Ok → E.written err.new ≡ E.written err.old }
    ensures line { Told (AppendedPrefix (line_of result)) (E.written err.old) (E.written err.new) }
    ensures whole_line { result ≢ Status.OutOfMemory → result ≢ Status.WriteFault → (Rose (E.faults err.old) (E.faults err.new) → ⊥) → Told (Appended (line_of result)) (E.written err.old) (E.written err.new) }
{
    let status = answer(alloc, words, store, out);
    tell(alloc, status, err)
}
