// The default of leftover variables.
ghost use Rattle.std.specs.Prelude.{◌≡◌, IfOk, map};
ghost use Rattle.rw_types_solving.specs.Types.{plain, plains, apply};
ghost use Rattle.rw_types_solving.specs.Closing.{closed_as, closing};

use crate::{Head, Sort, Term};
use rw_base::OutOfMemory;
use sqlite_items::Items;
use std::alloc::Global;

// What a leftover variable of this sort is.
fn default_of(alloc: Global, sort: Sort) -> Result<Term, OutOfMemory>
    ensures { IfOk result (λ made. plain made ≡ closed_as sort) }
{
    match sort {
        Sort::Plain => Ok(Term::App(Head::Tuple, Items::new(alloc))),
        Sort::Monad => Ok(Term::App(Head::I, Items::new(alloc))),
        Sort::Layer => {
            let mut parts = Items::new(alloc);
            parts.push(Term::App(Head::Tuple, Items::new(alloc)))?;
            Ok(Term::App(Head::StateT, parts))
        }
    }
}

/// The type with its variables closed by their sorts: `()`, `I` and `StateT ()`.
#[cycle(closing)]
pub fn closed(alloc: Global, term: &Term, sorts: &[Sort]) -> Result<Term, OutOfMemory>
    ensures { IfOk result (λ made. plain made ≡ apply (closing sorts.now) (plain term.now)) }
{
    match term {
        Term::Var(x) => match sorts.get(*x as usize) {
            Some(sort) => default_of(alloc, *sort),
            None => Ok(Term::Var(*x)),
        },
        Term::App(head, parts) => {
            Ok(Term::App(*head, closed_all(alloc, parts.as_slice(), sorts)?))
        }
    }
}

/// The types with their variables closed.
#[cycle(closing)]
pub fn closed_all(alloc: Global, terms: &[Term], sorts: &[Sort]) -> Result<Items<Term>, OutOfMemory>
    ensures { IfOk result (λ made. plains made ≡ map (apply (closing sorts.now)) (plains terms.now)) }
{
    let mut all = Items::new(alloc);
    for term in terms {
        all.push(closed(alloc, term, sorts)?)?;
    }
    Ok(all)
}
