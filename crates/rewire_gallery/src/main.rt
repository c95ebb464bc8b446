//! The program `rewire_gallery`: it runs commands of `rewire`, one a line of standard input, and writes each with what it
//! puts to its two streams to standard output.
//!
//! All commands run over one store in memory, into which each file of the folder is placed before the first command
//! that names it. The first save fails. What a command does is left to `rewire_top`.
#![tactic(auto)]

use rewire_top::rewire;
use rw_base::{FileStore, MemorySink, MemoryStore, OutOfMemory, Store};
use std::alloc::{AllocError, Global};
use std::io::{self, ErrorKind, Input, Write};

// More bytes than a file of the folder has.
const MOST: usize = 65_536;

// The number of the call that fails: the first command loads one file, and then saves.
const FAILING: u32 = 1;

fn no_memory(_: OutOfMemory) -> io::Error {
    io::Error::from(ErrorKind::OutOfMemory)
}

// The words of a line.
fn words(alloc: Global, line: &str) -> Result<Vec<String>, AllocError> {
    let mut words = Vec::new(alloc);
    for word in line.split_whitespace() {
        words.push(String::from_str(alloc, word)?)?;
    }
    Ok(words)
}

// Places each file of the folder that a word names, unless the store holds that name.
fn place_files<S: Store>(
    alloc: Global,
    words: &[String],
    folder: &mut S,
    store: &mut MemoryStore,
) -> Result<(), OutOfMemory> {
    for word in words {
        if store.read(word.as_str()).is_some() {
            continue;
        }
        if let Ok(bytes) = folder.load(alloc, word.as_str(), MOST) {
            store.place(word.as_str(), &bytes)?;
        }
    }
    Ok(())
}

// Runs the command of a line, and writes it with what it puts.
fn show(rt: &HostRuntime, line: &str, store: &mut MemoryStore) -> io::Result<()> {
    let alloc = rt.alloc();
    let words = words(alloc, line)?;
    place_files(alloc, &words, &mut FileStore::new(rt), store).map_err(no_memory)?;
    let mut out = MemorySink::new(alloc, Vec::new(alloc));
    let mut err = MemorySink::new(alloc, Vec::new(alloc));
    rewire(alloc, &words, store, &mut out, &mut err);
    println!(rt; "$ ./rewire {line}")?;
    rt.stdout().write_all(out.bytes())?;
    rt.stdout().write_all(err.bytes())
}

fn main(rt: HostRuntime) -> io::Result<()> {
    let alloc = rt.alloc();
    let mut failing = Vec::new(alloc);
    failing.push(FAILING)?;
    let mut store = MemoryStore::new(alloc, failing);
    for line in rt.stdin().lines(alloc) {
        show(&rt, line?.as_str(), &mut store)?;
    }
    Ok(())
}
