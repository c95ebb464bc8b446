// A law of the definitions: the contract of a function that does nothing.
ghost use Rattle.std.specs.Prelude.{◌≡◌};
ghost use Rattle.rw_base.specs.declared.place.Span.{Span};
ghost use Rattle.rw_tree.specs.Declarations.{PlainProgram};
ghost use Rattle.rw_scope_rules.specs.Bindings.{bound_program};
ghost use Rattle.rw_scope_binding.specs.Spanned.{spanned_program};

/// Binding changes annotations alone: a bound program with its spans alone is the program.
pub fn annotation_law()
    ensures { (program : PlainProgram Span) → spanned_program (bound_program program) ≡ program }
{}
