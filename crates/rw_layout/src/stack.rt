// The stack of the layout rule. Contracts see the list of its entries, the top first.
ghost use Rattle.std.specs.Prelude.{◌≡◌, ◌∷◌, [], ◌<◌, ◌^◌, drop, length, OnOk};
ghost use Rattle.std.specs.List.{slice_get, prefix_len};
ghost use Rattle.rw_layout.specs.Layout as spec;
ghost use Rattle.rw_layout.specs.Steps.{Leaves, is_run, column_met};
ghost use Rattle.rw_base.specs.declared.fail.Failure.TheVariants as fail;

use crate::{Entry, Opener};
use rw_base::{Fail, OutOfMemory, Place, Refusal, Rule};
use std::alloc::Global;
use std::marker::Model;

/// How many entries the stack has at most.
const HIGHEST: usize = 128;

/// The entries, the lowest first.
#[derive(Drop)]
pub struct Stack {
    entries: Vec<Entry>,
}

impl Model for Stack {
    ghost use Rattle.std.specs.Prelude.{List, reverse};
    ghost use Rattle.rw_layout.specs.declared.entry.Entry.{Entry};

    ghost Value = { List Entry };

    ghost view = { λ stack. reverse stack.entries.items };
}

/// What the entries of a run on top of the stack are.
#[derive(Clone, Copy)]
pub enum Run {
    /// Blocks.
    Blocks,
    /// Blocks that are not of a `let`.
    Plain,
    /// Blocks whose column is greater than this.
    Deeper(u32),
    /// Openers other than braces.
    Inner,
}

impl Run {
    // Whether an entry goes on with the run.
    fn has(self, entry: Entry) -> bool
        ensures { result ≡ is_run self entry }
    {
        match (self, entry) {
            (Run::Blocks, Entry::Block(_, _)) => true,
            (Run::Plain, Entry::Block(_, of_let)) => !of_let,
            (Run::Deeper(column), Entry::Block(n, _)) => column < n,
            (Run::Inner, Entry::Open(opener, _)) => {
                !matches!(opener, Opener::Brace | Opener::LetBrace)
            }
            _ => false,
        }
    }
}

// The column of the block that is met above all braces, if one is.
fn column_met(entry: Option<Entry>) -> u32
    ensures { result ≡ column_met entry }
{
    match entry {
        Some(Entry::Block(column, _)) => column,
        _ => 0,
    }
}

impl Stack {
    /// The empty stack. It takes no memory.
    pub fn new(alloc: Global) -> Stack
        ensures { result ≡ [] }
    {
        Stack {
            entries: Vec::new(alloc),
        }
    }

    /// How many entries there are.
    pub fn len(&self) -> usize
        ensures value { result ≡ length self.now }
        ensures small { result < 2 ^ 63 }
    {
        self.entries.len()
    }

    /// Puts an entry on top.
    pub fn put(&mut self, entry: Entry) -> Result<(), OutOfMemory>
        ensures { OnOk result (self.new ≡ entry ∷ self.old) }
    {
        self.entries.push(entry)?;
        Ok(())
    }

    /// Puts an entry on top, or refuses by E04 at this place where the stack is too high then.
    pub fn push(&mut self, entry: Entry, at: Place) -> Result<(), Fail>
        ensures { Leaves result at self.new (spec.pushed entry self.old) }
    {
        if self.len() >= HIGHEST {
            return Err(broken_at(at));
        }
        self.put(entry)?;
        Ok(())
    }

    /// Takes so many entries from the top.
    pub fn pop(&mut self, n: usize)
        ensures { self.new ≡ drop n self.old }
    {
        let left = self.entries.len().saturating_sub(n);
        self.entries.truncate(left);
    }

    /// Takes this opener from the top, on account of a token at this place; `then` opens anew.
    pub fn leave(&mut self, opener: Opener, at: Place) -> Result<(), OutOfMemory>
        ensures { OnOk result (self.new ≡ spec.reopened opener at (drop 1 self.old)) }
    {
        self.pop(1);
        match opener {
            Opener::If => self.put(Entry::Open(Opener::Then, at)),
            _ => Ok(()),
        }
    }

    /// The entry under so many.
    pub fn get(&self, n: usize) -> Option<Entry>
        ensures { result ≡ slice_get self.now n }
    {
        let len = self.entries.len();
        if n < len {
            Some(self.entries[len - 1 - n])
        } else {
            None
        }
    }

    /// How many entries the run on top has.
    pub fn run_len(&self, run: Run) -> usize
        ensures value { result ≡ prefix_len (is_run run) self.now }
        ensures small { result < 2 ^ 63 }
    {
        for n in 0..self.len() {
            match self.get(n) {
                Some(entry) if run.has(entry) => {}
                _ => return n,
            }
        }
        self.len()
    }

    /// The column of the nearest block, 0 if a written brace comes first or there is none.
    pub fn enclosing(&self) -> u32
        ensures { result ≡ spec.enclosing self.now }
    {
        column_met(self.get(self.run_len(Run::Inner)))
    }

    /// The place of the lowest opener.
    pub fn lowest_opener(&self) -> Option<Place>
        ensures { result ≡ spec.lowest_opener self.now }
    {
        for entry in &self.entries {
            if let Entry::Open(_, at) = *entry {
                return Some(at);
            }
        }
        None
    }
}

/// The refusal by E04 at a place.
pub fn broken_at(at: Place) -> Fail
    ensures { result ≡ fail.Refused (spec.broken_at at) }
{
    Fail::Refused(Refusal {
        rule: Rule::E04,
        place: at,
    })
}
