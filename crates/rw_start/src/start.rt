// The declaration of `start`, its signature, and its body.
ghost use Rattle.std.specs.Prelude.{◌≡◌, ◌<◌, ◌∷◌, [], Some, None, MatchOption, map, codes, length};
ghost use Rattle.rw_tree.specs.Views.{itself};
ghost use Rattle.rw_tree.specs.Types.{written};
ghost use Rattle.rw_tree.specs.Trees.{alternative_of};
ghost use Rattle.rw_tree.specs.Declarations.{declaration};
ghost use Rattle.rw_scope_rules.specs.Names.{is_among};
ghost use Rattle.rw_meaning.specs.Systems.{body_of as body_in};
ghost use Rattle.rw_start.specs.Start.{start_from, type_of_start as declared_type};
ghost use Rattle.rw_start.specs.Seen.{plain_start, plain_body};

use rw_base::{Name, Place};
use rw_scope_rules::Bound;
use rw_tree::{Alt, Decl, Expr, Local, Rhs, Written};

// What declares `start`: the number of its declaration, the place of its first clause, and its clauses.
#[derive(Drop)]
pub struct Start<'a> {
    pub number: usize,
    pub place: Place,
    pub clauses: &'a [Alt<Bound>],
}

// The body of `start`: the right side of its one clause, and what is bound after its `where`.
#[derive(Drop)]
pub struct Body<'a> {
    pub expression: &'a Expr<Bound>,
    pub wheres: &'a [Local<Bound>],
}

// The first declaration of `start`.
pub fn start_of<'a>(decls: &'a [Decl<Bound>]) -> Option<Start<'a>>
    ensures found { MatchOption result (start_from 0 (map (declaration itself) decls.now) ≡ None) (λ start. start_from 0 (map (declaration itself) decls.now) ≡ Some (plain_start start)) }
    ensures within { MatchOption result Unit (λ start. start.number < length decls.now) }
{
    for at in 0..decls.len() {
        if let Decl::Fun(bound, name, clauses) = &decls[at] {
            if name.is(b"start") {
                return Some(Start {
                    number: at,
                    place: bound.span.first,
                    clauses: clauses.as_slice(),
                });
            }
        }
    }
    None
}

// Whether `start` is among these names.
fn has_start(names: &[Name]) -> bool
    ensures { result ≡ is_among (codes "start") names.now }
{
    for name in names {
        if name.is(b"start") {
            return true;
        }
    }
    false
}

// The type of the first signature of `start`.
pub fn type_of_start<'a>(decls: &'a [Decl<Bound>]) -> Option<&'a Written>
    ensures { MatchOption result (declared_type (map (declaration itself) decls.now) ≡ None) (λ ty. declared_type (map (declaration itself) decls.now) ≡ Some (written ty.now)) }
{
    for decl in decls {
        if let Decl::Sig(_, names, ty) = decl {
            if has_start(names.as_slice()) {
                return Some(ty);
            }
        }
    }
    None
}

// The body of a clause that has neither patterns nor guards.
fn body_of_one<'a>(clause: &'a Alt<Bound>) -> Option<Body<'a>>
    ensures { MatchOption result (body_in (alternative_of itself clause.now ∷ []) ≡ None) (λ body. body_in (alternative_of itself clause.now ∷ []) ≡ Some (plain_body body)) }
{
    if clause.pats.len() != 0 {
        return None;
    }
    match &clause.rhs {
        Rhs::Plain(expression) => Some(Body {
            expression,
            wheres: clause.wheres.as_slice(),
        }),
        Rhs::Guarded(_) => None,
    }
}

// That of the one clause, if these clauses are one.
pub fn body_of<'a>(clauses: &'a [Alt<Bound>]) -> Option<Body<'a>>
    ensures { MatchOption result (body_in (map (alternative_of itself) clauses.now) ≡ None) (λ body. body_in (map (alternative_of itself) clauses.now) ≡ Some (plain_body body)) }
{
    match clauses {
        [clause] => body_of_one(clause),
        _ => None,
    }
}
