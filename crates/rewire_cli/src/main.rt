//! The program `rewire`: it hands its words, the system's files, and its two output streams to the one call, and
//! ends with the status's number.
//!
//! It leaves everything else to `rewire_top`. It ends with 5 where the words can't be had for want of memory, and
//! with 255, which is no status's number, where they can't be had for another cause.
#![tactic(auto)]

use rewire_top::rewire;
use rw_base::{FileStore, StreamSink};
use std::io::ErrorKind;
use std::process::ExitCode;
use std::{env, io};

// The words can't be had, and memory didn't run out.
const NO_WORDS: u8 = 255;

// The number of the status for want of memory.
const OUT_OF_MEMORY: u8 = 5;

// How the program ends where its words can't be had.
fn without_words(error: &io::Error) -> u8 {
    match error.kind() {
        ErrorKind::OutOfMemory => OUT_OF_MEMORY,
        _ => NO_WORDS,
    }
}

// The words of the program, without its name.
fn words(rt: &HostRuntime) -> io::Result<Vec<String>> {
    let mut words = Vec::new(rt.alloc());
    for word in env::args(rt)?.skip(1) {
        words.push(word)?;
    }
    Ok(words)
}

fn main(rt: HostRuntime) -> ExitCode {
    let words = match words(&rt) {
        Ok(words) => words,
        Err(error) => return ExitCode::from(without_words(&error)),
    };
    let mut store = FileStore::new(&rt);
    let mut out = StreamSink::new(rt.stdout());
    let mut err = StreamSink::new(rt.stderr());
    let status = rewire(rt.alloc(), words.as_slice(), &mut store, &mut out, &mut err);
    ExitCode::from(status.number())
}
