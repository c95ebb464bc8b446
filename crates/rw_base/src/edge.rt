// The store of the system's files, and a sink over a writer. What the system does is outside of every proof. What these
// hand to it and take from it isn't: all bytes, in their order, once, where a reader or a writer tells them. Each keeps
// a count for each kind of fault and raises it at each error of that kind.
ghost use Rattle.std.specs.Prelude.{◌≡◌, ◌≤◌, ◌⊎◌, None, IfOk, OnOk, OnErr, IsErrOf, IfSome, length, take, min, ◌+◌};
ghost use Rattle.std.specs.Io.KnownBytes.{Appends};
ghost use Rattle.rw_base.specs.Outside.{Rose};
ghost use Rattle.rw_base.specs.Edge.{AppendsPart, loads_failed, saves_failed, puts_failed, writer_of};

use crate::{DeviceError, Sink, Store};
use std::alloc::Global;
use std::fs::File;
use std::io::{Read, Write};
use std::rt::Files;

// One more fault, or the last value.
fn failed(count: &mut u64) -> DeviceError
    ensures rose { Rose count.old count.new }
    ensures later { count.old ≤ count.new }
    ensures result { result ≡ DeviceError.Failed }
{
    *count = count.saturating_add(1);
    DeviceError::Failed
}

const PIECE: usize = 4096;

// Reads all that the reader has left, or its first bytes, at most this many. `Failed` raises the count.
fn read_some<F: Read>(
    alloc: Global,
    file: &mut F,
    most: usize,
    faults: &mut u64,
) -> Result<Vec<u8>, DeviceError>
    ensures bytes { IfOk result (λ found. IfSome (F.remaining file.old) (λ all. found.items ≡ take most all)) }
    ensures short { IfOk result (λ found. length found.items ≤ most) }
    ensures failed { IsErrOf result DeviceError.Failed → Rose faults.old faults.new }
    ensures later { faults.old ≤ faults.new }
{
    let mut found = Vec::new(alloc);
    let mut piece = [0u8; PIECE];
    while found.len() < most {
        let room = (most - found.len()).min(PIECE);
        let count = match file.read(&mut piece[..room]) {
            Ok(count) => count,
            Err(_) => return Err(failed(faults)),
        };
        if count == 0 {
            break;
        }
        found.extend_from_slice(&piece[..count])?;
    }
    Ok(found)
}

// Writes all of the bytes, in their order, once, and flushes. `Failed` raises the count, and a prefix was written.
fn write_all<W: Write>(writer: &mut W, bytes: &[u8], faults: &mut u64) -> Result<(), DeviceError>
    ensures all { OnOk result (Appends (W.contents writer.old) (W.contents writer.new) bytes.now) }
    ensures part { OnErr result (AppendsPart bytes.now (W.contents writer.old) (W.contents writer.new)) }
    ensures failed { IsErrOf result DeviceError.Failed → Rose faults.old faults.new }
    ensures memory { IsErrOf result DeviceError.Memory → ⊥ }
    ensures later { faults.old ≤ faults.new }
{
    let mut rest = bytes;
    while !rest.is_empty() {
        let count = match writer.write(rest) {
            Ok(count) => count,
            Err(_) => return Err(failed(faults)),
        };
        if count == 0 {
            return Err(failed(faults));
        }
        rest = &rest[count..];
    }
    match writer.flush() {
        Ok(()) => Ok(()),
        Err(_) => Err(failed(faults)),
    }
}

/// The system's files, each under its path.
#[derive(Drop)]
pub struct FileStore<'a, R: Files> {
    rt: &'a R,
    load_faults: u64,
    save_faults: u64,
}

impl<'a, R: Files> FileStore<'a, R> {
    /// The files of the system that `rt` stands for. It takes no memory.
    pub fn new(rt: &'a R) -> Self
        ensures loads { loads_failed result ≡ 0 }
        ensures saves { saves_failed result ≡ 0 }
    {
        FileStore {
            rt,
            load_faults: 0,
            save_faults: 0,
        }
    }
}

impl<R: Files> Store for FileStore<'_, R> {
    ghost held = { λ _. None };

    ghost load_faults = { loads_failed };

    ghost save_faults = { saves_failed };

    ghost sound = { λ _. ⊥ };

    ghost sound_tells = { λ store sound. absurd sound };

    fn load(&mut self, alloc: Global, name: &str, most: usize) -> Result<Vec<u8>, DeviceError> {
        match File::open(self.rt, name) {
            Ok(mut file) => read_some(alloc, &mut file, most, &mut self.load_faults),
            Err(_) => Err(failed(&mut self.load_faults)),
        }
    }

    fn save(&mut self, name: &str, bytes: &[u8]) -> Result<(), DeviceError> {
        match File::create(self.rt, name) {
            Ok(mut file) => write_all(&mut file, bytes, &mut self.save_faults),
            Err(_) => Err(failed(&mut self.save_faults)),
        }
    }
}

/// A sink that passes all bytes on to a writer, and flushes it after each put.
#[derive(Drop)]
pub struct StreamSink<W: Write> {
    writer: W,
    faults: u64,
}

impl<W: Write> StreamSink<W> {
    /// A sink over this writer. It takes no memory.
    pub fn new(writer: W) -> Self
        ensures writer { writer_of result ≡ writer }
        ensures faults { puts_failed result ≡ 0 }
    {
        StreamSink { writer, faults: 0 }
    }

    /// The writer, with all that was put.
    pub fn into_inner(self) -> W
        ensures { result ≡ writer_of self }
    {
        self.writer
    }
}

impl<W: Write> Sink for StreamSink<W> {
    ghost written = { λ _. None };

    ghost faults = { puts_failed };

    fn put(&mut self, bytes: &[u8]) -> Result<(), DeviceError>
        ensures ok { Unit {0} }
        ensures part { Unit {0} }
        ensures memory { IsErrOf result DeviceError.Memory → ⊥ }
        ensures failed { IsErrOf result DeviceError.Failed → Rose (puts_failed self.old) (puts_failed self.new) }
        ensures later { puts_failed self.old ≤ puts_failed self.new }

        // Where the writer tells what it holds: all of the bytes follow it, and after a fault a prefix of them.
        ensures all { OnOk result (Appends (W.contents (writer_of self.old)) (W.contents (writer_of self.new)) bytes.now) }
        ensures prefix { OnErr result (AppendsPart bytes.now (W.contents (writer_of self.old)) (W.contents (writer_of self.new))) }
    {
        write_all(&mut self.writer, bytes, &mut self.faults)
    }
}
