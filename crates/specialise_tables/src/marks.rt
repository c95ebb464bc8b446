// Marks of numbers.
ghost use Rattle.std.specs.Prelude.{◌≡◌, ◌<◌, [], ◌||◌, ℕ, true, OnOk, length, nat_eq};
ghost use Rattle.specialise_tables.specs.Tabled.{is_marked, AreMarked};

use rw_base::OutOfMemory;
use std::alloc::Global;
use std::marker::Model;

/// Which numbers are marked.
#[derive(Drop)]
pub struct Marks {
    marks: Vec<bool>,
}

impl Model for Marks {
    ghost use Rattle.std.specs.Prelude.{List, Bool};

    ghost Value = { List Bool };

    ghost view = { λ m. m.marks.items };
}

impl Marks {
    /// None is.
    pub fn new(alloc: Global) -> Marks
        ensures { result ≡ [] }
    {
        Marks {
            marks: Vec::new(alloc),
        }
    }

    /// Whether this number is marked.
    pub fn has(&self, n: u32) -> bool
        ensures { result ≡ is_marked self.now n }
    {
        match self.marks.as_slice().get(n as usize) {
            Some(mark) => *mark,
            None => false,
        }
    }

    /// Whether all these numbers are marked.
    pub fn has_all(&self, numbers: &[u32]) -> bool
        ensures { result ≡ true → AreMarked self.now numbers.now }
    {
        for n in numbers {
            if !self.has(*n) {
                return false;
            }
        }
        true
    }

    /// Marks this number too.
    pub fn mark(&mut self, n: u32) -> Result<(), OutOfMemory>
        ensures { OnOk result ((k : ℕ) → is_marked self.new k ≡ (nat_eq n k || is_marked self.old k)) }
    {
        reach(&mut self.marks, n)?;
        self.marks[n as usize] = true;
        Ok(())
    }
}

// There is a mark of this number, or that it has none.
fn reach(marks: &mut Vec<bool>, n: u32) -> Result<(), OutOfMemory>
    ensures long { OnOk result (n < length marks.new.items) }
    ensures same { OnOk result ((k : ℕ) → is_marked marks.new.items k ≡ is_marked marks.old.items k) }
{
    for _i in marks.len()..n as usize + 1 {
        marks.push(false)?;
    }
    Ok(())
}
