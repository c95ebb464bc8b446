// E06: imports of modules that are not there (Haskell 2010 Report, section 5.3: two modules can be imported).
ghost use Rattle.std.specs.Prelude.{◌≡◌, IfOk, IsTrue, not};
ghost use Rattle.rw_tree.specs.Views.{itself};
ghost use Rattle.rw_tree.specs.Declarations.{plain_program};
ghost use Rattle.rw_scope_rules.specs.Names.{is_among};
ghost use Rattle.rw_scope_rules.specs.Scope.{known_modules, unknown_modules as unknown_modules_of};

use rw_base::{Name, OutOfMemory, Place, Span};
use rw_tree::{Decl, Program};
use std::alloc::Global;

// Whether a module can be imported.
fn is_known(name: &Name) -> bool
    ensures { result ≡ is_among name.now known_modules }
{
    name.is(b"ReWire") || name.is(b"Prelude")
}

/// The places of the imports of other modules than `ReWire` and `Prelude`, in the order of the program: those at which
/// it breaks E06.
pub fn unknown_modules(alloc: Global, program: &Program<Span>) -> Result<Vec<Place>, OutOfMemory>
    ensures { IfOk result (λ places. places.items ≡ unknown_modules_of (plain_program itself program.now)) }
{
    let mut places = Vec::new(alloc);
    for decl in program.decls.as_slice() {
        if let Decl::Import(at, name) = decl {
            if !is_known(name) {
                places.push(at.first)?;
            }
        }
    }
    Ok(places)
}
