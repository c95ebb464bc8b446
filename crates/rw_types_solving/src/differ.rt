// The first difference of two types, which solving removes.
ghost use Rattle.std.specs.Prelude.{◌≡◌};
ghost use Rattle.rw_types_solving.specs.Types.{plain, plains, tys};
ghost use Rattle.rw_types_solving.specs.Inside.{shown, difference, differences};

use crate::Term;

/// What keeps two types apart: nothing, heads that differ, or a variable that must be that type.
#[derive(Drop)]
pub enum Found<'a> {
    Same,
    Clash,
    At(u32, &'a Term),
}

// The first difference of two types. Of two variables the one with the higher number must be the other.
#[cycle(differing)]
pub fn first_difference<'a>(a: &'a Term, b: &'a Term) -> Found<'a>
    ensures { shown result ≡ difference (plain a.now) (plain b.now) }
{
    match (a, b) {
        (Term::Var(x), Term::Var(y)) => {
            if x == y {
                Found::Same
            } else if y < x {
                Found::At(*x, b)
            } else {
                Found::At(*y, a)
            }
        }
        (Term::Var(x), Term::App(_, _)) => Found::At(*x, b),
        (Term::App(_, _), Term::Var(y)) => Found::At(*y, a),
        (Term::App(h, ts), Term::App(k, us)) => {
            if h.is(*k) {
                first_of_all(ts.as_slice(), us.as_slice())
            } else {
                Found::Clash
            }
        }
    }
}

#[cycle(differing)]
fn first_of_all<'a>(ts: &'a [Term], us: &'a [Term]) -> Found<'a>
    ensures { shown result ≡ differences (tys (plains ts.now)) (tys (plains us.now)) }
{
    for (i, t) in ts.iter().enumerate() {
        if i >= us.len() {
            return Found::Clash;
        }
        match first_difference(t, &us[i]) {
            Found::Same => {}
            Found::Clash => return Found::Clash,
            Found::At(x, found) => return Found::At(x, found),
        }
    }
    if ts.len() < us.len() {
        Found::Clash
    } else {
        Found::Same
    }
}
