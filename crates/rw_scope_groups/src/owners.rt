// Which bindings of a group bind a number.
ghost use Rattle.std.specs.Prelude.{◌≡◌, ◌++◌, ◌∷◌, [], ℕ, nat_eq, IfOk, OnOk, map, if◌then◌else◌};
ghost use Rattle.rw_tree.specs.Views.{itself};
ghost use Rattle.rw_tree.specs.Trees.{local_binding};
ghost use Rattle.rw_scope_rules.specs.Groups.{own_numbers};
ghost use Rattle.rw_scope_groups.specs.Rows.{owners as owners_from, owners_here, found_in};

use crate::numbers::own;
use indexmap::IndexMap;
use rw_base::OutOfMemory;
use rw_scope_rules::Bound;
use rw_tree::Local;
use sqlite_items::Items;
use std::alloc::Global;

// The places in the group of the bindings that bind each number.
#[derive(Drop)]
pub struct Owners {
    pub table: IndexMap<u32, Items<u32>>,
}

// A number of 32 bits: more bindings are want of memory.
fn number(at: usize) -> Result<u32, OutOfMemory>
    ensures { IfOk result (λ number. number ≡ at) }
{
    if at > u32::MAX as usize {
        return Err(OutOfMemory);
    }
    Ok(at as u32)
}

impl Owners {
    // Nothing is bound.
    fn new(alloc: Global) -> Owners
        ensures { (k : ℕ) → found_in result k ≡ [] }
    {
        Owners {
            table: IndexMap::new(alloc),
        }
    }

    // A binding binds a number.
    fn add(&mut self, alloc: Global, bound: u32, place: u32) -> Result<(), OutOfMemory>
        ensures { OnOk result ((k : ℕ) → found_in self.new k ≡ (if nat_eq bound k then found_in self.old k ++ place ∷ [] else found_in self.old k)) }
    {
        let mut places = match self.table.swap_remove(&bound) {
            Some(places) => places,
            None => Items::new(alloc),
        };
        places.push(place)?;
        self.table.insert(bound, places)?;
        Ok(())
    }

    // A binding binds these numbers.
    fn add_all(&mut self, alloc: Global, bound: &[u32], place: u32) -> Result<(), OutOfMemory>
        ensures { OnOk result ((k : ℕ) → found_in self.new k ≡ found_in self.old k ++ owners_here k place bound.now) }
    {
        for one in bound {
            self.add(alloc, *one, place)?;
        }
        Ok(())
    }

    // Adds the places of the bindings that bind a number.
    pub fn add_places(&self, wanted: u32, places: &mut Items<u32>) -> Result<(), OutOfMemory>
        ensures { OnOk result (places.new ≡ places.old ++ found_in self.now wanted) }
    {
        match self.table.get(&wanted) {
            Some(found) => add_slice(places, found.as_slice()),
            None => Ok(()),
        }
    }
}

// Adds some places behind others.
fn add_slice(places: &mut Items<u32>, more: &[u32]) -> Result<(), OutOfMemory>
    ensures { OnOk result (places.new ≡ places.old ++ more.now) }
{
    for place in more {
        places.push(*place)?;
    }
    Ok(())
}

// What the bindings of a group bind.
pub fn owners_in(alloc: Global, bindings: &[Local<Bound>]) -> Result<Owners, OutOfMemory>
    ensures { IfOk result (λ made. (k : ℕ) → found_in made k ≡ owners_from k 0 (map own_numbers (map (local_binding itself) bindings.now))) }
{
    let mut made = Owners::new(alloc);
    for (i, binding) in bindings.iter().enumerate() {
        let bound = own(alloc, binding)?;
        made.add_all(alloc, bound.as_slice(), number(i)?)?;
    }
    Ok(made)
}
