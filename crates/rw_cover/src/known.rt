// What the declarations of a program say: how many constructors a data type has, and which names are known to hold.
ghost use Rattle.std.specs.Prelude.{◌≡◌, IfOk, map};
ghost use Rattle.rw_tree.specs.Views.{itself};
ghost use Rattle.rw_tree.specs.Trees.{expression};
ghost use Rattle.rw_tree.specs.Declarations.{declaration};
ghost use Rattle.rw_cover.specs.Rows.{counts_of, is_bound_to, always_holds};

use rw_base::OutOfMemory;
use rw_scope_rules::{Binding, Bound};
use rw_tree::{Decl, Expr};
use std::alloc::Global;

/// What `otherwise` and `True` of the prelude are bound to.
#[derive(Clone, Copy, Debug, PartialEq, Eq)]
pub struct Known {
    pub otherwise: Option<Binding>,
    pub truth: Option<Binding>,
}

/// How many constructors each declaration has, by its number: 0 where it is no data type.
pub fn constructor_counts(alloc: Global, decls: &[Decl<Bound>]) -> Result<Vec<usize>, OutOfMemory>
    ensures { IfOk result (λ counts. counts.items ≡ counts_of (map (declaration itself) decls.now)) }
{
    let mut counts = Vec::new(alloc);
    for decl in decls {
        let count = match decl {
            Decl::Data(_, data) => data.constructors.len(),
            _ => 0,
        };
        counts.push(count)?;
    }
    Ok(counts)
}

// Whether a name is bound to this function or constructor.
fn is_bound(name: Option<Binding>, to: Option<Binding>) -> bool
    ensures { result ≡ is_bound_to name to }
{
    match (name, to) {
        (Some(Binding::Declared(m)), Some(Binding::Declared(n))) => m == n,
        (Some(Binding::Constructor(m, j)), Some(Binding::Constructor(n, k))) => m == n && j == k,
        _ => false,
    }
}

impl Known {
    // Whether a guard is known to hold: it is `otherwise` or `True`, by what they are bound to.
    pub fn always(&self, test: &Expr<Bound>) -> bool
        ensures { result ≡ always_holds self.now (expression itself test.now) }
    {
        match test {
            Expr::Var(at, _) => is_bound(at.bound, self.otherwise),
            Expr::Con(at, _) => is_bound(at.bound, self.truth),
            _ => false,
        }
    }
}
