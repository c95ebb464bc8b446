// Laws on chains of operators: each is the contract of a function that does nothing, for callers to cite.
ghost use Rattle.std.specs.Prelude.{◌≡◌, ◌≤◌, ℕ, List, Some, map};
ghost use Rattle.rw_base.specs.declared.place.Place.{Place};
ghost use Rattle.rw_base.specs.declared.place.Span.{Span};
ghost use Rattle.rw_tree.specs.declared.expr.Expr.{Expr};
ghost use Rattle.rw_tree.specs.declared.program.Program.{Program};
ghost use Rattle.rw_parser_grammar.specs.Chains.{Strength, IsGrouped, strength_of_name};
ghost use Rattle.rw_parser_grammar.specs.Levels.{max_levels};
ghost use Rattle.rw_parser_grammar.specs.Resolved.{IsResolved};
ghost use Rattle.rw_parser_grammar.specs.Resolution.{IsProgramResolved, FirstDeclarationBroken};
ghost use Rattle.rw_parser_chains.specs.Grouping.{Counted, counted, levels_of, grouped_of};
ghost use Rattle.rw_parser_chains.specs.Resolving.{expression_made};

/// Grouping from left to right, with a stack, gives exactly the tree of at most 512 levels that a chain is.
pub fn chains_are_grouped()
    ensures grouped { (strength : List ℕ → Strength) (operands operators : List (Expr Span)) (tree : Expr Span) (levels : ℕ) → grouped_of strength (map counted operators) (map counted operands) ≡ Some (tree, levels) → IsGrouped strength operands operators tree }
    ensures found { (strength : List ℕ → Strength) (operands operators : List (Expr Span)) (tree : Expr Span) → IsGrouped strength operands operators tree → levels_of tree ≤ max_levels → grouped_of strength (map counted operators) (map counted operands) ≡ Some (counted tree) }
{}

/// What is made of a tree part by part is exactly the tree of at most 512 levels that it resolves to, with its levels.
pub fn trees_are_resolved()
    ensures resolved { (strength : List ℕ → Strength) (tree : Expr Span) (made : Counted) → expression_made strength tree ≡ Some made → IsResolved strength tree made.0 }
    ensures levels { (strength : List ℕ → Strength) (tree : Expr Span) (made : Counted) → expression_made strength tree ≡ Some made → made.1 ≡ levels_of made.0 }
    ensures within { (strength : List ℕ → Strength) (tree : Expr Span) (made : Counted) → expression_made strength tree ≡ Some made → made.1 ≤ max_levels }
    ensures found { (strength : List ℕ → Strength) (tree other : Expr Span) → IsResolved strength tree other → levels_of other ≤ max_levels → expression_made strength tree ≡ Some (counted other) }
{}

/// A program resolves to one program at most, and to none where one of its items is broken, of which one is the first.
pub fn one_program_resolved()
    ensures one { (program first second : Program Span) → IsProgramResolved program first → IsProgramResolved program second → first ≡ second }
    ensures apart { (program other : Program Span) (at : Place) → IsProgramResolved program other → FirstDeclarationBroken (strength_of_name program.decls) program.decls at → ⊥ }
    ensures one_place { (program : Program Span) (first second : Place) → FirstDeclarationBroken (strength_of_name program.decls) program.decls first → FirstDeclarationBroken (strength_of_name program.decls) program.decls second → first ≡ second }
{}
