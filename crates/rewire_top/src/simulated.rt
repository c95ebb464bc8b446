// `sim VHDL TRACE`: two loads, the simulation, and one put of all lines.
ghost use Rattle.std.specs.Prelude.{◌≡◌, ◌≢◌, ◌⊎◌, ◌∷◌, [], ℕ, List, Some, Err};
ghost use Rattle.rw_base.specs.Outside.{Files, Told, IfTold, Rose, Loads, Appended, AppendedPrefix};
ghost use Rattle.rewire_top.specs.Commands.{HoldsAll, Sim};
ghost use Rattle.rewire_top.specs.Answers.{Simulates, Prints, CanBeDone, status_of, IsRefusal};
ghost use Rattle.vhdl_bench.specs.declared.fail.BenchFail.{BenchFail};
ghost use Rattle.vhdl_bench.specs.declared.fail.BenchFail.TheVariants.{OutOfMemory as WantOfMemory};

use crate::Status;
use rw_base::{DeviceError, Sink, Store};
use std::alloc::Global;
use vhdl_bench::{BenchFail, simulate};

// One byte more than a text, and than a trace, may have.
const MOST_OF_VHDL: usize = 67_108_865;

const MOST_OF_TRACE: usize = 16_777_217;

// The status that tells why a simulation prints nothing.
fn told(fail: BenchFail) -> Status
    ensures { result ≡ status_of fail }
{
    match fail {
        BenchFail::VhdlRefused(rule) => Status::VhdlRefused(rule),
        BenchFail::TraceRefused(line) => Status::TraceRefused(line),
        BenchFail::NotSettled(change) => Status::NotSettled(change),
        BenchFail::OutOfMemory => Status::OutOfMemory,
    }
}

// Simulates the text under `vhdl` on the trace under `trace`, and puts what it shows to `out`.
pub fn sim<S: Store, O: Sink>(
    alloc: Global,
    vhdl: &str,
    trace: &str,
    store: &mut S,
    out: &mut O,
) -> Status
    ensures usage { result ≢ Status.Usage }
    ensures read_fault { result ≡ Status.ReadFault → Rose (S.load_faults store.old) (S.load_faults store.new) }
    ensures read_fault_sound { S.sound store.old → IfTold (HoldsAll (vhdl.now ∷ trace.now ∷ [])) (S.held store.old) → result ≢ Status.ReadFault }
    ensures write_fault { result ≡ Status.WriteFault → Rose (O.faults out.old) (O.faults out.new) }
    ensures kept { S.held store.new ≡ S.held store.old }
    ensures refused { IsRefusal result → ⊥ }
    ensures later { (fail : BenchFail) → fail ≢ WantOfMemory → result ≡ status_of fail → IfTold (λ files. Simulates (Some (Sim vhdl.now trace.now)) files (Err fail)) (S.held store.old) }
    ensures later_where { (files : Files) → S.held store.old ≡ Some files → (fail : BenchFail) → Simulates (Some (Sim vhdl.now trace.now)) files (Err fail) → (result ≡ status_of fail) ⊎ (result ≡ Status.ReadFault) ⊎ (result ≡ Status.OutOfMemory) }
    ensures complete { (files : Files) → S.held store.old ≡ Some files → CanBeDone (Some (Sim vhdl.now trace.now)) files →
        (result ≡ Status.Ok) ⊎ (result ≡ Status.ReadFault) ⊎ (result ≡ Status.WriteFault) ⊎ (result ≡ Status.OutOfMemory) }
    ensures shown { result ≡ Status.Ok → (text : List ℕ) × IfTold (Prints (Some (Sim vhdl.now trace.now)) text) (S.held store.old) × Told (Appended text) (O.written out.old) (O.written out.new) }
    ensures shown_part { result ≡ Status.WriteFault → (text : List ℕ) × IfTold (Prints (Some (Sim vhdl.now trace.now)) text) (S.held store.old) × Told (AppendedPrefix text) (O.written out.old) (O.written out.new) }
    ensures out_kept { result ≢ Status.Ok → result ≢ Status.WriteFault → O.written out.new ≡ O.written out.old }
{
    let text = match store.load(alloc, vhdl, MOST_OF_VHDL) {
        Err(DeviceError::Failed) => return Status::ReadFault,
        Err(DeviceError::Memory) => return Status::OutOfMemory,
        Ok(text) => text,
    };
    let bytes = match store.load(alloc, trace, MOST_OF_TRACE) {
        Err(DeviceError::Failed) => return Status::ReadFault,
        Err(DeviceError::Memory) => return Status::OutOfMemory,
        Ok(bytes) => bytes,
    };
    let lines = match simulate(alloc, text.as_slice(), bytes.as_slice()) {
        Err(fail) => return told(fail),
        Ok(lines) => lines,
    };
    match out.put(lines.bytes()) {
        Ok(()) => Status::Ok,
        Err(DeviceError::Failed) => Status::WriteFault,
        Err(DeviceError::Memory) => Status::OutOfMemory,
    }
}
