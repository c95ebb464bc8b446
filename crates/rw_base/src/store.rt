// What the program loads from and saves to, and what it puts lines to: the two traits and what they promise.
// `Failed` comes only where the object's own count of faults rose in that call.
ghost use Rattle.std.specs.Prelude.{◌≡◌, ◌≤◌, ◌⊎◌, ℕ, List, Option, None, length, IfOk, OnOk, IsErrOf, IsSome};
ghost use Rattle.rw_base.specs.declared.store.DeviceError.TheVariants.{Memory};
ghost use Rattle.rw_base.specs.Outside.{Files, Told, IfTold, Rose, Appended, AppendedPrefix, Saved, SavedInPart, Loads, HoldsNothing};

use std::alloc::{AllocError, AllocFailed, Global};

/// Why a call of a store or a sink failed.
#[derive(Clone, Copy, Debug, PartialEq, Eq)]
pub enum DeviceError {
    /// The device failed, and its count of faults rose.
    Failed,
    /// Memory ran out, and nothing changed.
    Memory,
}

impl From<AllocError> for DeviceError {
    ghost from_gives = { λ _ e. e ≡ Memory };

    fn from(_: AllocError) -> Self {
        DeviceError::Memory
    }
}

impl<T: Drop> From<AllocFailed<T>> for DeviceError {
    ghost from_gives = { λ _ e. e ≡ Memory };

    fn from(_: AllocFailed<T>) -> Self {
        DeviceError::Memory
    }
}

/// Bytes under names, as files are.
pub trait Store {
    /// What each name holds, where the store tells it.
    ghost held: { Self → Option Files };

    /// How often a load has failed. It never falls.
    ghost load_faults: { Self → ℕ };

    /// How often a save has failed. It never falls.
    ghost save_faults: { Self → ℕ };

    /// It tells what it holds, and fails only at loads of names that hold nothing. Every call keeps it so.
    ghost sound: { Self → Type 0 };

    /// The first `most` bytes of what a name holds, or all if there are fewer. It changes nothing that is held. A
    /// name that holds nothing is a failure.
    fn load(&mut self, alloc: Global, name: &str, most: usize) -> Result<Vec<u8>, DeviceError>
        ensures bytes { IfOk result (λ found. IfTold (Loads name.now most found.items) (held self.old)) }
        ensures short { IfOk result (λ found. length found.items ≤ most) }
        ensures held { held self.new ≡ held self.old }
        ensures failed { IsErrOf result DeviceError.Failed → Rose (load_faults self.old) (load_faults self.new) }
        ensures later { load_faults self.old ≤ load_faults self.new }
        ensures saves { save_faults self.new ≡ save_faults self.old }
        ensures sound { sound self.old → sound self.new }
        ensures sound_failed { sound self.old → IsErrOf result DeviceError.Failed → IfTold (HoldsNothing name.now) (held self.old) };

    /// Makes a name hold exactly these bytes. After `Failed` it holds what it held, or a prefix of them. Other names
    /// are never changed.
    fn save(&mut self, name: &str, bytes: &[u8]) -> Result<(), DeviceError>
        ensures saved { OnOk result (Told (Saved name.now bytes.now) (held self.old) (held self.new)) }
        ensures part { IsErrOf result DeviceError.Failed → Told (SavedInPart name.now bytes.now) (held self.old) (held self.new) }
        ensures memory { IsErrOf result DeviceError.Memory → held self.new ≡ held self.old }
        ensures failed { IsErrOf result DeviceError.Failed → Rose (save_faults self.old) (save_faults self.new) }
        ensures later { save_faults self.old ≤ save_faults self.new }
        ensures loads { load_faults self.new ≡ load_faults self.old }
        ensures sound { sound self.old → sound self.new }
        ensures sound_failed { sound self.old → IsErrOf result DeviceError.Failed → ⊥ };

    /// A sound store tells what it holds.
    ghost sound_tells: { (store : Self) → sound store → IsSome (held store) };
}

/// What lines are put to, as a terminal is.
pub trait Sink {
    /// All that was written, where the sink tells it.
    ghost written: { Self → Option (List ℕ) };

    /// How often a put has failed. It never falls.
    ghost faults: { Self → ℕ };

    /// Appends these bytes. After `Failed` a prefix of them was appended, after `Memory` nothing.
    fn put(&mut self, bytes: &[u8]) -> Result<(), DeviceError>
        ensures ok { OnOk result (Told (Appended bytes.now) (written self.old) (written self.new)) }
        ensures part { IsErrOf result DeviceError.Failed → Told (AppendedPrefix bytes.now) (written self.old) (written self.new) }
        ensures memory { IsErrOf result DeviceError.Memory → written self.new ≡ written self.old }
        ensures failed { IsErrOf result DeviceError.Failed → Rose (faults self.old) (faults self.new) }
        ensures later { faults self.old ≤ faults self.new };
}
