// Laws of the definitions: each is the contract of a function that does nothing.
ghost use Rattle.std.specs.Prelude.{◌≡◌, None};
ghost use Rattle.rw_base.specs.declared.place.Span.{Span};
ghost use Rattle.rw_tree.specs.Declarations.{PlainProgram};
ghost use Rattle.rw_scope_rules.specs.Verdict.{IsScoped, first_broken};

/// A program breaks none of E06 to E12 exactly where each of them holds.
pub fn verdict_law()
    ensures holds { (program : PlainProgram Span) → first_broken program ≡ None → IsScoped program }
    ensures none_broken { (program : PlainProgram Span) → IsScoped program → first_broken program ≡ None }
{}
