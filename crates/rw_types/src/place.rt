// What stands at a declaration.
ghost use Rattle.std.specs.Prelude.{◌≡◌};
ghost use Rattle.rw_tree.specs.Views.{itself};
ghost use Rattle.rw_tree.specs.Declarations.{declaration};
ghost use Rattle.rw_types_rules.specs.Typings.{declaration_label};

use rw_scope_rules::Bound;
use rw_tree::Decl;

// The annotation of the declaration itself.
pub fn label(decl: &Decl<Bound>) -> Bound
    ensures { result ≡ declaration_label (declaration itself decl.now) }
{
    match decl {
        Decl::Import(at, _) => *at,
        Decl::Data(at, _) => *at,
        Decl::Fixity(at, _, _, _) => *at,
        Decl::Sig(at, _, _) => *at,
        Decl::Fun(at, _, _) => *at,
    }
}
