// Declarations and whole programs.
ghost use Rattle.std.specs.Prelude.{◌≡◌, map, IfOk};
ghost use Rattle.rw_tree.specs.Views.{itself};
ghost use Rattle.rw_tree.specs.Declarations.{declaration, plain_program};
ghost use Rattle.rw_scope_rules.specs.Bindings.{bound_declaration, bound_declarations, bound_program};
ghost use Rattle.rw_scope_binding.specs.Numbered.{known};

use crate::annotation::{bound_to, next, unnamed};
use crate::clause::bind_clauses;
use crate::fill::fill;
use crate::locals::Locals;
use crate::tops::Tops;
use rw_base::{OutOfMemory, Span};
use rw_scope_rules::{Binding, Bound};
use rw_tree::{Decl, Program};
use rw_tree_copies::{copied_data, copied_names, copied_type};
use sqlite_items::Items;
use std::alloc::Global;

// The declaration with this number. Only a function has names that are bound.
fn bind_decl(
    alloc: Global,
    tops: &Tops,
    number: u32,
    decl: &Decl<Span>,
) -> Result<Decl<Bound>, OutOfMemory>
    ensures { IfOk result (λ bound. declaration itself bound ≡ bound_declaration (known tops.now) number (declaration itself decl.now)) }
{
    match decl {
        Decl::Import(at, name) => Ok(Decl::Import(unnamed(*at), name.copied(alloc)?)),
        Decl::Data(at, made) => Ok(Decl::Data(unnamed(*at), copied_data(alloc, made)?)),
        Decl::Fixity(at, side, strength, names) => {
            let names = copied_names(alloc, names.as_slice())?;
            Ok(Decl::Fixity(unnamed(*at), *side, *strength, names))
        }
        Decl::Sig(at, names, written) => {
            let names = copied_names(alloc, names.as_slice())?;
            Ok(Decl::Sig(unnamed(*at), names, copied_type(alloc, written)?))
        }
        Decl::Fun(at, name, clauses) => {
            let name = name.copied(alloc)?;
            let mut scope = Locals::new(alloc);
            let clauses = bind_clauses(alloc, tops, &mut scope, clauses.as_slice())?;
            let binding = Binding::Declared(number);
            Ok(Decl::Fun(bound_to(*at, Some(binding)), name, clauses))
        }
    }
}

fn bind_decls(
    alloc: Global,
    tops: &Tops,
    decls: &[Decl<Span>],
) -> Result<Items<Decl<Bound>>, OutOfMemory>
    ensures { IfOk result (λ bound. map (declaration itself) bound ≡ bound_declarations (known tops.now) 0 (map (declaration itself) decls.now)) }
{
    let mut number = 0;
    let mut bound = Items::new(alloc);
    for decl in decls {
        bound.push(bind_decl(alloc, tops, next(&mut number)?, decl)?)?;
    }
    Ok(bound)
}

/// The program with what each of its names is bound to, or with nothing where there is nothing that it could be bound
/// to (Haskell 2010 Report, sections 3 and 4.4.3). No rule on names is asked for. A program with 2^32 declarations, or
/// with as many names in scope at one place, counts as want of memory.
pub fn bind(alloc: Global, program: &Program<Span>) -> Result<Program<Bound>, OutOfMemory>
    ensures { IfOk result (λ bound. plain_program itself bound ≡ bound_program (plain_program itself program.now)) }
{
    let tops = fill(alloc, program.decls.as_slice())?;
    let decls = bind_decls(alloc, &tops, program.decls.as_slice())?;
    Ok(Program { decls })
}
