// A store in memory. A name holds what the newest of its files has; the newest file stands first.
ghost use Rattle.std.specs.Prelude.{◌≡◌, ◌↔◌, ◌⊎◌, ◌≤◌, ◌++◌, [], Some, None, ℕ, IfOk, OnOk, OnErr, IsErr, IsErrOf, IsTrue, Contains, MatchOption, take, length, refl, List};
ghost use Rattle.rw_base.specs.Memory.{find_file, content_of, calls_of, failing_of, load_faults_of, save_faults_of};
ghost use Rattle.rw_base.specs.Outside.{Saved, SavedInPart, Loads, HoldsNothing, Rose, next_count, Told, IfTold};

use super::{is_listed, next};
use crate::{DeviceError, OutOfMemory, Store};
use sqlite_items::Items;
use std::alloc::{AllocError, Global};

// A name, and what it holds.
#[derive(Drop)]
struct File {
    name: Items<u8>,
    bytes: Items<u8>,
}

/// A store that keeps what was saved and placed, and fails at the loads and saves of a given list.
#[derive(Drop)]
pub struct MemoryStore {
    alloc: Global,
    files: Vec<File>,
    failing: Items<u32>,
    calls: u64,
    load_faults: u64,
    save_faults: u64,
}

// What a name holds.
fn find<'a>(files: &'a [File], name: &str) -> Option<&'a [u8]>
    ensures { MatchOption result (find_file files.now name.now ≡ None) (λ found. find_file files.now name.now ≡ Some found.now) }
{
    for file in files {
        if file.name.as_slice() == name.as_bytes() {
            return Some(file.bytes.as_slice());
        }
    }
    None
}

// Makes the name hold the bytes.
#[tactic(auto, using(crate::proofs::Names::saved_in_front))]
fn put_first(
    alloc: Global,
    files: &mut Vec<File>,
    name: &str,
    bytes: &[u8],
) -> Result<(), AllocError>
    ensures ok { OnOk result (Saved name.now bytes.now (find_file files.old.items) (find_file files.new.items)) }
    ensures err { OnErr result (files.new.items ≡ files.old.items) }
{
    let file = File {
        name: Items::from_slice(alloc, name.as_bytes())?,
        bytes: Items::from_slice(alloc, bytes)?,
    };
    files.insert(0, file)?;
    Ok(())
}

// The first bytes, at most so many.
fn first(alloc: Global, bytes: &[u8], most: usize) -> Result<Vec<u8>, AllocError>
    ensures { IfOk result (λ found. found.items ≡ take most bytes.now) }
{
    if most < bytes.len() {
        bytes[..most].to_vec(alloc)
    } else {
        bytes.to_vec(alloc)
    }
}

impl MemoryStore {
    /// An empty store. The loads and saves with the listed numbers, counted together from 0, fail. It takes no
    /// memory.
    pub fn new(alloc: Global, failing: Vec<u32>) -> Self
        ensures content { (name : List ℕ) → content_of result name ≡ None }
        ensures calls { calls_of result ≡ 0 }
        ensures failing { failing_of result ≡ failing.items }
        ensures load_faults { load_faults_of result ≡ 0 }
        ensures save_faults { save_faults_of result ≡ 0 }
    {
        MemoryStore {
            alloc,
            files: Vec::new(alloc),
            failing: Items::from_vec(failing),
            calls: 0,
            load_faults: 0,
            save_faults: 0,
        }
    }

    // Counts a call, and says whether it fails.
    fn fails(&mut self) -> bool
        ensures listed { IsTrue result ↔ Contains (failing_of self.old) (calls_of self.old) }
        ensures calls { self.new ≡ record self.old { calls = next_count (calls_of self.old) } }
    {
        let fails = is_listed(self.failing.as_slice(), self.calls);
        self.calls = next(self.calls);
        fails
    }

    /// What a name holds, or None where it holds nothing. It isn't counted as a call.
    pub fn read(&self, name: &str) -> Option<&[u8]>
        ensures { MatchOption result (content_of self.now name.now ≡ None) (λ found. content_of self.now name.now ≡ Some found.now) }
    {
        find(self.files.as_slice(), name)
    }

    /// Makes a name hold these bytes, and leaves all other names as they were. It isn't counted as a call.
    pub fn place(&mut self, name: &str, bytes: &[u8]) -> Result<(), OutOfMemory>
        ensures ok { OnOk result (Saved name.now bytes.now (content_of self.old) (content_of self.new)) }
        ensures err { OnErr result (content_of self.new ≡ content_of self.old) }
        ensures calls { calls_of self.new ≡ calls_of self.old }
        ensures failing { failing_of self.new ≡ failing_of self.old }
        ensures load_faults { load_faults_of self.new ≡ load_faults_of self.old }
        ensures save_faults { save_faults_of self.new ≡ save_faults_of self.old }
    {
        put_first(self.alloc, &mut self.files, name, bytes)?;
        Ok(())
    }
}

impl Store for MemoryStore {
    ghost held = { λ store. Some (content_of store) };

    ghost load_faults = { load_faults_of };

    ghost save_faults = { save_faults_of };

    ghost sound = { λ store. failing_of store ≡ [] };

    ghost sound_tells = { λ store sound. refl };

    fn load(&mut self, alloc: Global, name: &str, most: usize) -> Result<Vec<u8>, DeviceError>
        ensures bytes { IfOk result (λ found. Loads name.now most found.items (content_of self.old)) }
        ensures short { IfOk result (λ found. length found.items ≤ most) }
        ensures held { content_of self.new ≡ content_of self.old }
        ensures failed { IsErrOf result DeviceError.Failed → Rose (load_faults_of self.old) (load_faults_of self.new) }
        ensures later { load_faults_of self.old ≤ load_faults_of self.new }
        ensures saves { save_faults_of self.new ≡ save_faults_of self.old }
        ensures sound { failing_of self.old ≡ [] → failing_of self.new ≡ [] }
        ensures sound_failed { failing_of self.old ≡ [] → IsErrOf result DeviceError.Failed → HoldsNothing name.now (content_of self.old) }

        // It fails only at a listed call or where the name holds nothing, and there it gives no Ok.
        ensures listed_only { IsErrOf result DeviceError.Failed → Contains (failing_of self.old) (calls_of self.old) ⊎ HoldsNothing name.now (content_of self.old) }
        ensures listed { Contains (failing_of self.old) (calls_of self.old) → IsErr result }
        ensures calls { calls_of self.new ≡ next_count (calls_of self.old) }
        ensures failing { failing_of self.new ≡ failing_of self.old }
    {
        let fails = self.fails();
        match find(&self.files, name) {
            Some(found) if !fails => Ok(first(alloc, found, most)?),
            _ => {
                self.load_faults = next(self.load_faults);
                Err(DeviceError::Failed)
            }
        }
    }

    fn save(&mut self, name: &str, bytes: &[u8]) -> Result<(), DeviceError>
        ensures saved { OnOk result (Saved name.now bytes.now (content_of self.old) (content_of self.new)) }
        ensures part { IsErrOf result DeviceError.Failed → SavedInPart name.now bytes.now (content_of self.old) (content_of self.new) }
        ensures memory { IsErrOf result DeviceError.Memory → Some (content_of self.new) ≡ Some (content_of self.old) }
        ensures failed { IsErrOf result DeviceError.Failed → Rose (save_faults_of self.old) (save_faults_of self.new) }
        ensures later { save_faults_of self.old ≤ save_faults_of self.new }
        ensures loads { load_faults_of self.new ≡ load_faults_of self.old }
        ensures sound { failing_of self.old ≡ [] → failing_of self.new ≡ [] }
        ensures sound_failed { failing_of self.old ≡ [] → IsErrOf result DeviceError.Failed → ⊥ }

        // It fails only at a listed call, and there it gives no Ok.
        ensures listed_only { IsErrOf result DeviceError.Failed → Contains (failing_of self.old) (calls_of self.old) }
        ensures listed { Contains (failing_of self.old) (calls_of self.old) → IsErr result }
        ensures calls { calls_of self.new ≡ next_count (calls_of self.old) }
        ensures failing { failing_of self.new ≡ failing_of self.old }
    {
        if self.fails() {
            self.save_faults = next(self.save_faults);
            return Err(DeviceError::Failed);
        }
        Ok(put_first(self.alloc, &mut self.files, name, bytes)?)
    }
}
