// Laws on whole programs: each is the contract of a function that does nothing, for callers to cite.
ghost use Rattle.std.specs.Prelude.{◌⊎◌};
ghost use Rattle.rw_base.specs.declared.place.Place.{Place};
ghost use Rattle.rw_base.specs.declared.place.Span.{Span};
ghost use Rattle.rw_tree.specs.declared.program.Program.{Program};
ghost use Rattle.rw_parser_grammar.specs.Chains.{strength_of_name};
ghost use Rattle.rw_parser_grammar.specs.Resolution.{IsProgramResolved, FirstDeclarationBroken};

/// A program resolves to a program of at most 512 levels, or one of its items is the first that is broken, at a place
/// (Haskell 2010 Report, section 10.6).
pub fn each_program_is_judged()
    ensures { (program : Program Span) → ((other : Program Span) × IsProgramResolved program other) ⊎ ((at : Place) × FirstDeclarationBroken (strength_of_name program.decls) program.decls at) }
{}
