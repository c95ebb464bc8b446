// Where a refusal is reported: a place in the prelude is that of `start`.
ghost use Rattle.std.specs.Prelude.{◌≡◌, map, Ok, Err};
ghost use Rattle.rw_base.specs.declared.fail.Failure.TheVariants as fail;
ghost use Rattle.rw_tree.specs.Declarations.{declaration, plain_program};
ghost use Rattle.rw_front.specs.Verdict.{place_of_start, reported};

use rw_base::{Fail, Place, Refusal, Span};
use rw_tree::{Decl, Program};

fn place_of_start(decls: &[Decl<Span>]) -> Place
    ensures { result ≡ place_of_start (map (declaration (λ span. span)) decls.now) }
{
    for decl in decls {
        if let Decl::Fun(at, name, _) = decl {
            if name.is(b"start") {
                return at.first;
            }
        }
    }
    Place::START
}

/// The refusal, at the place of `start` where it has one in the prelude.
pub fn reported(program: &Program<Span>, refusal: Refusal) -> Refusal
    ensures { result ≡ reported (plain_program (λ span. span) program.now) refusal }
{
    if refusal.place.line == 0 {
        return Refusal {
            rule: refusal.rule,
            place: place_of_start(program.decls.as_slice()),
        };
    }
    refusal
}
