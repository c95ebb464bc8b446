// `check FILE`: the load, and the verdict of the front.
ghost use Rattle.std.specs.Prelude.{◌≡◌, ◌≢◌, ◌⊎◌, ◌∷◌, [], Some};
ghost use Rattle.rw_base.specs.Outside.{Files, Told, IfTold, Rose};
ghost use Rattle.rw_base.specs.declared.rule.Rule.{Rule};
ghost use Rattle.rw_base.specs.declared.place.Place.{Place};
ghost use Rattle.rewire_top.specs.Commands.{HoldsAll, Check};
ghost use Rattle.rewire_top.specs.Answers.{Compiles, IsRefusedAs, CanBeDone, IsLater};

use crate::Status;
use crate::compile::MOST_OF_SOURCE;
use rw_base::{DeviceError, Fail, Store};
use rw_front::{front, one_verdict};
use std::alloc::Global;

// Judges the source under `file` by the rules E01 to E16.
pub fn check<S: Store>(alloc: Global, file: &str, store: &mut S) -> Status
    ensures usage { result ≢ Status.Usage }
    ensures read_fault { result ≡ Status.ReadFault → Rose (S.load_faults store.old) (S.load_faults store.new) }
    ensures read_fault_sound { S.sound store.old → IfTold (HoldsAll (file.now ∷ [])) (S.held store.old) → result ≢ Status.ReadFault }
    ensures write_fault { result ≢ Status.WriteFault }
    ensures kept { S.held store.new ≡ S.held store.old }
    ensures ok { result ≡ Status.Ok → IfTold (λ files. Compiles (Some (Check file.now)) files files) (S.held store.old) }
    ensures refused { (rule : Rule) (place : Place) → result ≡ Status.Refused rule place → IfTold (λ files. IsRefusedAs (Some (Check file.now)) files rule place) (S.held store.old) }
    ensures refused_where { (files : Files) (rule : Rule) (place : Place) → S.held store.old ≡ Some files → IsRefusedAs (Some (Check file.now)) files rule place →
        (result ≡ Status.Refused rule place) ⊎ (result ≡ Status.ReadFault) ⊎ (result ≡ Status.OutOfMemory) }
    ensures no_other { IsLater result → ⊥ }
    ensures complete { (files : Files) → S.held store.old ≡ Some files → CanBeDone (Some (Check file.now)) files → (result ≡ Status.Ok) ⊎ (result ≡ Status.ReadFault) ⊎ (result ≡ Status.OutOfMemory) }
{
    let source = match store.load(alloc, file, MOST_OF_SOURCE) {
        Err(DeviceError::Failed) => return Status::ReadFault,
        Err(DeviceError::Memory) => return Status::OutOfMemory,
        Ok(source) => source,
    };
    one_verdict();
    match front(alloc, &source) {
        Ok(_) => Status::Ok,
        Err(Fail::Refused(refusal)) => Status::Refused(refusal.rule, refusal.place),
        Err(Fail::OutOfMemory) => Status::OutOfMemory,
    }
}
