//! The program `rw_gen_workload`: it writes a source of the stated workload, or the inputs that it is run on, to standard
//! output, for measurements.
//!
//! `rw_gen_workload source NUMBER SIZE` writes the source; `rw_gen_workload inputs NUMBER SIZE` writes the 1,000 inputs as a trace,
//! a line with `0` or `1` for each. NUMBER is below 2^64, SIZE from 1 to 1,024. Other words end with status 2, want of
//! memory and a fault of the stream with status 1. It leaves what is written to `rw_gen`.
#![tactic(auto)]

ghost use Rattle.std.specs.Prelude.{◌≡◌, ◌≤◌, IfOk};
ghost use Rattle.rw_gen.specs.Workload.{source_text};

use rw_gen::{inputs, source};
use std::alloc::Global;
use std::io::Write;
use std::process::ExitCode;
use std::{env, io};

// The inputs of a workload as a trace.
fn trace(alloc: Global, number: u64, size: u32) -> io::Result<Vec<u8>>
    requires some { 1 ≤ size }
    requires few { size ≤ 1024 }
{
    let Ok(bits) = inputs(alloc, number, size) else {
        return Err(io::Error::from(io::ErrorKind::OutOfMemory));
    };
    let mut text = Vec::new(alloc);
    for bit in &bits {
        text.push(if *bit { b'1' } else { b'0' })?;
        text.push(b'\n')?;
    }
    Ok(text)
}

// The source of a workload.
fn text(alloc: Global, number: u64, size: u32) -> io::Result<Vec<u8>>
    requires some { 1 ≤ size }
    requires few { size ≤ 1024 }
    ensures { IfOk result (λ text. text.items ≡ source_text number size) }
{
    match source(alloc, number, size) {
        Ok(text) => Ok(text),
        Err(_) => Err(io::Error::from(io::ErrorKind::OutOfMemory)),
    }
}

// What the words ask for; nothing where they ask for nothing.
fn asked(alloc: Global, words: &[String]) -> io::Result<Option<Vec<u8>>> {
    let [what, number, size] = words else {
        return Ok(None);
    };
    let (Ok(number), Ok(size)) = (number.as_str().parse::<u64>(), size.as_str().parse::<u32>())
    else {
        return Ok(None);
    };
    if size < 1 || 1024 < size {
        return Ok(None);
    }
    match what.as_str() {
        "source" => Ok(Some(text(alloc, number, size)?)),
        "inputs" => Ok(Some(trace(alloc, number, size)?)),
        _ => Ok(None),
    }
}

// Writes what the words ask for, and says whether they asked for something.
fn write(rt: &HostRuntime) -> io::Result<bool> {
    let mut words = Vec::new(rt.alloc());
    for word in env::args(rt)?.skip(1) {
        words.push(word)?;
    }
    match asked(rt.alloc(), words.as_slice())? {
        Some(text) => {
            rt.stdout().write_all(text.as_slice())?;
            Ok(true)
        }
        None => Ok(false),
    }
}

fn main(rt: HostRuntime) -> ExitCode {
    match write(&rt) {
        Ok(true) => ExitCode::from(0),
        Ok(false) => ExitCode::from(2),
        Err(_) => ExitCode::from(1),
    }
}
