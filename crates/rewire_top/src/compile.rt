// `compile FILE OUT`: the load, the compiler, and the save as the last step.
ghost use Rattle.std.specs.Prelude.{◌≡◌, ◌≢◌, ◌⊎◌, ◌∷◌, [], Some};
ghost use Rattle.rw_base.specs.declared.rule.Rule.{Rule};
ghost use Rattle.rw_base.specs.declared.place.Place.{Place};
ghost use Rattle.rw_base.specs.Outside.{Files, Told, IfTold, Rose, OthersKept};
ghost use Rattle.rewire_top.specs.Commands.{HoldsAll, Compile};
ghost use Rattle.rewire_top.specs.Answers.{Compiles, CompilesInPart, IsRefusedAs, CanBeDone, IsLater};

use crate::Status;
use rw_base::{DeviceError, Place, Rule, Store, Unread};
use std::alloc::Global;

// One byte more than a source may have.
pub const MOST_OF_SOURCE: usize = 262_145;

// Compiles the source under `file`, and saves its text under `target`.
pub fn compile<S: Store>(alloc: Global, file: &str, target: &str, store: &mut S) -> Status
    ensures usage { result ≢ Status.Usage }
    ensures read_fault { result ≡ Status.ReadFault → Rose (S.load_faults store.old) (S.load_faults store.new) }
    ensures read_fault_sound { S.sound store.old → IfTold (HoldsAll (file.now ∷ [])) (S.held store.old) → result ≢ Status.ReadFault }
    ensures write_fault { result ≡ Status.WriteFault → Rose (S.save_faults store.old) (S.save_faults store.new) }
    ensures others { Told (OthersKept target.now) (S.held store.old) (S.held store.new) }
    ensures kept { result ≢ Status.Ok → result ≢ Status.WriteFault → S.held store.new ≡ S.held store.old }
    ensures ok { result ≡ Status.Ok → Told (Compiles (Some (Compile file.now target.now))) (S.held store.old) (S.held store.new) }
    ensures part { result ≡ Status.WriteFault → Told (CompilesInPart (Some (Compile file.now target.now))) (S.held store.old) (S.held store.new) }
    ensures refused { (rule : Rule) (place : Place) → result ≡ Status.Refused rule place → IfTold (λ files. IsRefusedAs (Some (Compile file.now target.now)) files rule place) (S.held store.old) }
    ensures refused_where { (files : Files) (rule : Rule) (place : Place) → S.held store.old ≡ Some files → IsRefusedAs (Some (Compile file.now target.now)) files rule place →
        (result ≡ Status.Refused rule place) ⊎ (result ≡ Status.ReadFault) ⊎ (result ≡ Status.OutOfMemory) }
    ensures no_other { IsLater result → ⊥ }
    ensures write_fault_sound { S.sound store.old → result ≢ Status.WriteFault }
    ensures complete { (files : Files) → S.held store.old ≡ Some files → CanBeDone (Some (Compile file.now target.now)) files →
        (result ≡ Status.Ok) ⊎ (result ≡ Status.ReadFault) ⊎ (result ≡ Status.WriteFault) ⊎ (result ≡ Status.OutOfMemory) }
{
    let source = match store.load(alloc, file, MOST_OF_SOURCE) {
        Err(DeviceError::Failed) => return Status::ReadFault,
        Err(DeviceError::Memory) => return Status::OutOfMemory,
        Ok(source) => source,
    };
    let text = match explicit_form::compile(alloc, &source) {
        Err(Unread::Refused(_)) => return Status::Refused(Rule::E00, Place::START),
        Err(Unread::OutOfMemory) => return Status::OutOfMemory,
        Ok(text) => text,
    };
    match store.save(target, &text) {
        Ok(()) => Status::Ok,
        Err(DeviceError::Failed) => Status::WriteFault,
        Err(DeviceError::Memory) => Status::OutOfMemory,
    }
}
