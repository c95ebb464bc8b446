// The types of all variables under a table, each within the bound.
ghost use Rattle.std.specs.Prelude.{◌≡◌, ℕ, ◌<◌, ◌≤◌, ◌^◌, IfOk, Err, length};
ghost use Rattle.rw_types_solving.specs.Types.{Ty, plain, nodes, meaning};
ghost use Rattle.rw_types_solving.specs.Tables.{equations, Follows, Falls, Small, most};
ghost use Rattle.rw_base.specs.declared.fail.Failure.TheVariants as fail;

use crate::resolve::{LARGEST, resolved};
use crate::term::count;
use crate::{NoSolution, Term, Unsolved};
use sqlite_items::Items;
use std::alloc::Global;

/// The most nodes of a type.
const MOST: u64 = 1024;

// What the variable comes to. Refused where that has more than 1,024 nodes.
fn type_of(alloc: Global, x: u32, entries: &[Option<Term>]) -> Result<Term, Unsolved>
    requires { Falls (equations entries.now) }
    ensures made { IfOk result (λ made. (s : ℕ → Ty) → Follows (equations entries.now) s → plain made ≡ s x) }
    ensures small { IfOk result (λ made. nodes (plain made) ≤ most) }
    ensures refused { result ≡ Err (fail.Refused (record {})) → (s : ℕ → Ty) → Follows (equations entries.now) s → most < nodes (s x) }
{
    let variable = Term::Var(x);
    match resolved(alloc, &variable, entries, LARGEST) {
        Ok((term, _)) => {
            if count(&term) > MOST {
                Err(Unsolved::Refused(NoSolution))
            } else {
                Ok(term)
            }
        }
        Err(failure) => Err(failure),
    }
}

/// What each variable comes to. Refused where one has more than 1,024 nodes.
pub fn types_of(alloc: Global, entries: &[Option<Term>]) -> Result<Items<Term>, Unsolved>
    requires falls { Falls (equations entries.now) }
    requires few { length entries.now < 2 ^ 32 }
    ensures as_many { IfOk result (λ made. length made ≡ length entries.now) }
    ensures made { IfOk result (λ made. (s : ℕ → Ty) → Follows (equations entries.now) s → (x : ℕ) → x < length entries.now → meaning made x ≡ s x) }
    ensures small { IfOk result (λ made. Small (length entries.now) (meaning made)) }
    ensures refused { result ≡ Err (fail.Refused (record {})) → (s : ℕ → Ty) → Follows (equations entries.now) s → Small (length entries.now) s → ⊥ }
{
    let variables = entries.len() as u32;
    let mut all = Items::new(alloc);
    for x in 0..variables {
        match type_of(alloc, x, entries) {
            Ok(term) => all.push(term)?,
            Err(failure) => return Err(failure),
        }
    }
    Ok(all)
}
