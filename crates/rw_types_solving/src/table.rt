// The table of equations, and the one step of solving: to make two types the same.
ghost use Rattle.std.specs.Prelude.{◌≡◌, ◌<◌, true, false, ℕ, IfOk, Err, length};
ghost use Rattle.rw_types_solving.specs.declared.term.Sort.{Sort};
ghost use Rattle.rw_types_solving.specs.Types.{Ty, plain, meaning, occurs};
ghost use Rattle.rw_types_solving.specs.Sorts.{Heads, HasSort};
ghost use Rattle.rw_types_solving.specs.Tables.{equations, Solves, Uses, Narrowed, NoneWithin, IsSorted, IsTable, IsMostGeneral, Small};
ghost use Rattle.rw_types_solving.specs.Conditions.{listed, hold, no_one};
ghost use Rattle.rw_types_solving.specs.Closing.{IsDefault, HasNone, AreMonads, sort_of};
ghost use Rattle.rw_base.specs.declared.fail.Failure.TheVariants as fail;

use crate::close::closed_all;
use crate::condition::all_hold;
use crate::differ::{Found, first_difference};
use crate::general::types_of;
use crate::resolve::{LARGEST, resolved};
use crate::term::{copied, has};
use crate::{NoSolution, Sort, Term, Unsolved};
use sqlite_items::Items;
use std::alloc::Global;
use std::marker::Model;

/// The equations of the variables: contracts see a list with the type of each variable that has one.
#[derive(Drop)]
pub struct Table {
    entries: Items<Option<Term>>,
}

impl Model for Table {
    ghost use Rattle.std.specs.Prelude.{List, Option};
    ghost use Rattle.rw_types_solving.specs.declared.term.Term.{Term};
    ghost use Rattle.rw_types_solving.specs.contracts.term.Term as term;
    ghost use Rattle.std.specs.Coded.{codes};

    ghost Value = { List (Option Term) };

    ghost coded = { Prim.hlevel (codes, term.the_row.coded) };

    ghost view = { λ table. table.entries };
}

impl Table {
    /// So many variables, with no equation.
    pub fn new(alloc: Global, variables: u32) -> Result<Table, Unsolved>
        ensures table { IfOk result (λ made. IsTable (equations made)) }
        ensures as_many { IfOk result (λ made. length made ≡ variables) }
        ensures free { IfOk result (λ made. (t : ℕ → Ty) → Solves t (equations made)) }
        ensures sorted { IfOk result (λ made. (v : ℕ → Sort) (w : Heads) → IsSorted v w (equations made)) }
        ensures refused { result ≡ Err (fail.Refused (record {})) → ⊥ }
    {
        let mut entries = Items::new(alloc);
        for _ in 0..variables {
            entries.push(None)?;
        }
        Ok(Table { entries })
    }

    /// How many variables there are.
    pub fn len(&self) -> usize
        ensures { result ≡ length self.now }
    {
        self.entries.len()
    }

    /// Makes two types the same. Refused only where no solution so far makes them the same within 1,024 nodes; then the
    /// table is not to be used again.
    pub fn equate(&mut self, alloc: Global, a: &Term, b: &Term) -> Result<(), Unsolved>
        requires table { IsTable (equations self.old) }
        requires a_uses { Uses (length self.old) (plain a.now) }
        requires b_uses { Uses (length self.old) (plain b.now) }
        ensures table { IfOk result (λ _. IsTable (equations self.new)) }
        ensures as_many { IfOk result (λ _. length self.new ≡ length self.old) }
        ensures narrowed { IfOk result (λ _. Narrowed (equations self.old) (equations self.new) (plain a.now) (plain b.now)) }
        ensures sorted { IfOk result (λ _. (v : ℕ → Sort) (w : Heads) (k : Sort) → IsSorted v w (equations self.old) → HasSort v w k (plain a.now) → HasSort v w k (plain b.now) → IsSorted v w (equations self.new)) }
        ensures refused { result ≡ Err (fail.Refused (record {})) → NoneWithin (equations self.old) (plain a.now) (plain b.now) }
    {
        'rounds: loop {
            let (left, _) = resolved(alloc, a, self.entries.as_slice(), LARGEST)?;
            let (right, _) = resolved(alloc, b, self.entries.as_slice(), LARGEST)?;
            match first_difference(&left, &right) {
                Found::Same => return Ok(()),
                Found::Clash => return Err(Unsolved::Refused(NoSolution)),
                Found::At(x, by) => {
                    if has(by, x) {
                        return Err(Unsolved::Refused(NoSolution));
                    }
                    let by = copied(alloc, by)?;
                    self.entries.set(x as usize, Some(by));
                }
            }
        }
    }

    /// A most general solution: what each variable comes to. Refused only where every solution gives some variable a
    /// type of more than 1,024 nodes.
    pub fn most_general(&self, alloc: Global) -> Result<Items<Term>, Unsolved>
        requires { IsTable (equations self.now) }
        ensures as_many { IfOk result (λ made. length made ≡ length self.now) }
        ensures solves { IfOk result (λ made. Solves (meaning made) (equations self.now)) }
        ensures general { IfOk result (λ made. IsMostGeneral (equations self.now) (meaning made)) }
        ensures small { IfOk result (λ made. Small (length self.now) (meaning made)) }
        ensures within { IfOk result (λ made. (x : ℕ) → x < length self.now → Uses (length self.now) (meaning made x)) }
        ensures sorted { IfOk result (λ made. (v : ℕ → Sort) (w : Heads) → IsSorted v w (equations self.now) → (x : ℕ) → HasSort v w (v x) (meaning made x)) }
        ensures refused { result ≡ Err (fail.Refused (record {})) → (t : ℕ → Ty) → Solves t (equations self.now) → Small (length self.now) t → ⊥ }
    {
        let types = types_of(alloc, self.entries.as_slice())?;
        Ok(types)
    }

    /// The default solution: a most general one with its leftover variables closed by their sorts, `()`, `I` and
    /// `StateT ()`. The listed variables are to stand for state monads; `states` says which unknown monads are. Refused
    /// only where no solution within 1,024 nodes meets these conditions.
    pub fn default(
        &self,
        alloc: Global,
        sorts: &[Sort],
        conditions: &[u32],
        states: &[bool],
    ) -> Result<Items<Term>, Unsolved>
        requires table { IsTable (equations self.now) }
        requires as_many { length sorts.now ≡ length self.now }
        ensures as_many { IfOk result (λ made. length made ≡ length self.now) }
        ensures default { IfOk result (λ made. IsDefault (equations self.now) sorts.now (meaning made)) }
        ensures solves { IfOk result (λ made. Solves (meaning made) (equations self.now)) }
        ensures closed { IfOk result (λ made. (x y : ℕ) → x < length self.now → occurs y (meaning made x) ≡ false) }
        ensures small { IfOk result (λ made. (w : Heads) → IsSorted (sort_of sorts.now) w (equations self.now) → Small (length self.now) (meaning made)) }
        ensures sorted { IfOk result (λ made. (w : Heads) → IsSorted (sort_of sorts.now) w (equations self.now) → (x : ℕ) → HasSort (sort_of sorts.now) w (sort_of sorts.now x) (meaning made x)) }
        ensures holds { IfOk result (λ made. (w : Heads) → IsSorted (sort_of sorts.now) w (equations self.now) → AreMonads (sort_of sorts.now) conditions.now → hold no_one (listed states.now) (meaning made) conditions.now ≡ true) }
        ensures refused { result ≡ Err (fail.Refused (record {})) → HasNone (equations self.now) (listed states.now) conditions.now }
    {
        let types = self.most_general(alloc)?;
        if !all_hold(types.as_slice(), conditions, states) {
            return Err(Unsolved::Refused(NoSolution));
        }
        let closed = closed_all(alloc, types.as_slice(), sorts)?;
        Ok(closed)
    }
}
