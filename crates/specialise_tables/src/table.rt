// A table of closed data types.
ghost use Rattle.std.specs.Prelude.{◌≡◌, ◌∷◌, ◌++◌, ◌||◌, [], ℕ, OnOk, nat_eq};
ghost use Rattle.specialise_tables.specs.Tabled.{is_marked};

use crate::marks::Marks;
use rw_base::OutOfMemory;
use std::alloc::Global;

/// Closed data types by their numbers, each once, behind the types of its fields, in order of first sight; and which types were
/// looked at: a data type is looked at once, and another type again behind its parts, and then no more.
#[derive(Drop)]
pub struct Table {
    pub numbers: Vec<u32>,
    pub marks: Marks,
}

impl Table {
    /// No type.
    pub fn new(alloc: Global) -> Table
        ensures numbers { result.numbers.items ≡ [] }
        ensures marks { result.marks ≡ [] }
    {
        Table {
            numbers: Vec::new(alloc),
            marks: Marks::new(alloc),
        }
    }

    // A data type behind the others, which is then looked at.
    pub(crate) fn put(&mut self, n: u32) -> Result<(), OutOfMemory>
        ensures numbers { OnOk result (self.new.numbers.items ≡ self.old.numbers.items ++ n ∷ []) }
        ensures marks { OnOk result ((k : ℕ) → is_marked self.new.marks k ≡ (nat_eq n k || is_marked self.old.marks k)) }
    {
        self.numbers.push(n)?;
        self.marks.mark(n)
    }
}
