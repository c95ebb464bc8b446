// A sink in memory.
ghost use Rattle.std.specs.Prelude.{◌≡◌, ◌≤◌, [], Some, OnOk, IsErr, IsErrOf, Contains};
ghost use Rattle.rw_base.specs.Memory.{written_to, puts_of, sink_failing_of, put_faults_of};
ghost use Rattle.rw_base.specs.Outside.{Appended, AppendedPrefix, Rose, next_count};

use super::{is_listed, next};
use crate::{DeviceError, Sink};
use sqlite_items::Items;
use std::alloc::Global;

/// A sink that keeps all that was put, and fails at the puts of a given list.
#[derive(Drop)]
pub struct MemorySink {
    bytes: Vec<u8>,
    failing: Items<u32>,
    calls: u64,
    faults: u64,
}

impl MemorySink {
    /// An empty sink. The puts with the listed numbers, counted from 0, fail. It takes no memory.
    pub fn new(alloc: Global, failing: Vec<u32>) -> Self
        ensures written { written_to result ≡ [] }
        ensures calls { puts_of result ≡ 0 }
        ensures failing { sink_failing_of result ≡ failing.items }
        ensures faults { put_faults_of result ≡ 0 }
    {
        MemorySink {
            bytes: Vec::new(alloc),
            failing: Items::from_vec(failing),
            calls: 0,
            faults: 0,
        }
    }

    /// All that was written.
    pub fn bytes(&self) -> &[u8]
        ensures { result.now ≡ written_to self.now }
    {
        self.bytes.as_slice()
    }
}

impl Sink for MemorySink {
    ghost written = { λ sink. Some (written_to sink) };

    ghost faults = { put_faults_of };

    fn put(&mut self, bytes: &[u8]) -> Result<(), DeviceError>
        ensures ok { OnOk result (Appended bytes.now (written_to self.old) (written_to self.new)) }
        ensures part { IsErrOf result DeviceError.Failed → AppendedPrefix bytes.now (written_to self.old) (written_to self.new) }
        ensures memory { IsErrOf result DeviceError.Memory → Some (written_to self.new) ≡ Some (written_to self.old) }
        ensures failed { IsErrOf result DeviceError.Failed → Rose (put_faults_of self.old) (put_faults_of self.new) }
        ensures later { put_faults_of self.old ≤ put_faults_of self.new }

        // It fails only at a listed put, and there it gives no Ok.
        ensures listed_only { IsErrOf result DeviceError.Failed → Contains (sink_failing_of self.old) (puts_of self.old) }
        ensures listed { Contains (sink_failing_of self.old) (puts_of self.old) → IsErr result }
        ensures calls { puts_of self.new ≡ next_count (puts_of self.old) }
        ensures failing { sink_failing_of self.new ≡ sink_failing_of self.old }
    {
        let call = self.calls;
        self.calls = next(call);
        if is_listed(self.failing.as_slice(), call) {
            self.faults = next(self.faults);
            return Err(DeviceError::Failed);
        }
        Ok(self.bytes.extend_from_slice(bytes)?)
    }
}
