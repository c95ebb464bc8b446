// Laws on what tokens spell: each is the contract of a function that does nothing, for callers to cite.
ghost use Rattle.std.specs.Prelude.{◌≡◌, ◌⊎◌, ◌+◌, ◌≤◌, ◌<◌, ℕ, true, List, [], length, Some, None, Ok, Err};
ghost use Rattle.rw_base.specs.declared.place.Place.{Place};
ghost use Rattle.rw_base.specs.declared.place.Span.{Span};
ghost use Rattle.rw_tree.specs.declared.types.Written.{Written};
ghost use Rattle.rw_tree.specs.declared.pattern.Pat.{Pat};
ghost use Rattle.rw_tree.specs.declared.expr.Expr.{Expr};
ghost use Rattle.rw_tree.specs.declared.clause.Alt.{Alt};
ghost use Rattle.rw_tree.specs.declared.clause.Local.{Local};
ghost use Rattle.rw_parser_grammar.specs.declared.lexeme.Lexeme.{Lexeme};
ghost use Rattle.rw_parser_grammar.specs.Types.{IsType};
ghost use Rattle.rw_parser_grammar.specs.Patterns.{IsApat, IsPattern};
ghost use Rattle.rw_lex.specs.declared.token.Token.{Token};
ghost use Rattle.rw_tree.specs.declared.program.Program.{Program};
ghost use Rattle.rw_tree.specs.declared.decl.Decl.{Decl};
ghost use Rattle.rw_tree.specs.Declarations.{declaration};
ghost use Rattle.rw_parser_grammar.specs.Chains.{Strength, strength_of_name};
ghost use Rattle.rw_parser_reading.specs.Frames.{frames_of_row, frames_of_declaration};
ghost use Rattle.rw_parser_grammar.specs.Grammar.{IsFrame, IsItem, IsNotOfTheGrammar, Spells, whole_run};
ghost use Rattle.rw_parser_grammar.specs.Levels.{declaration_levels, max_levels};
ghost use Rattle.rw_parser_reading.specs.ReadProgram.{frame_at, item_of, items_at, program_at};
ghost use Rattle.rw_parser_grammar.specs.Resolution.{FirstDeclarationBroken, IsDeclarationResolved, IsProgramResolved, IsRowBroken};
ghost use Rattle.rw_parser_reading.specs.Shallow.{first_deep, item_place, of_items, shallow};
ghost use Rattle.rw_parser_grammar.specs.Lexemes.{next_spot};
ghost use Rattle.rw_parser_reading.specs.ReadDeclarations.{item_at};
ghost use Rattle.rw_parser_grammar.specs.declared.item.Item.{Item};
ghost use Rattle.rw_parser_grammar.specs.Clauses.{IsLeftSide, IsClause, IsExpression, IsLocals};
ghost use Rattle.rw_parser_reading.specs.ReadTypes.{ends_type, ends_pattern, type_at, pattern_at};
ghost use Rattle.rw_parser_reading.specs.ReadExpressions.{ends_expression};
ghost use Rattle.rw_parser_reading.specs.ReadClauses.{ends_clause, ends_entry};
ghost use Rattle.rw_parser_reading.specs.ReadLevels.{clause_over, expression_at, locals_at};

/// Reading from left to right, with one token of lookahead, gives exactly the type that tokens begin with, where what
/// follows could not go on with it.
pub fn types_are_read()
    ensures spelled { (n : ℕ) (tokens rest : List Lexeme) (type : Written) → type_at n tokens ≡ Some (type, rest) → IsType n tokens type rest }
    ensures read { (n : ℕ) (tokens rest : List Lexeme) (type : Written) → IsType n tokens type rest → ends_type rest ≡ true → type_at n tokens ≡ Some (type, rest) }
{}

/// Reading from left to right, with one token of lookahead, gives exactly the pattern that tokens begin with, where what
/// follows could not go on with it.
pub fn patterns_are_read()
    ensures spelled { (n : ℕ) (tokens rest : List Lexeme) (pat : Pat Span) → pattern_at n tokens ≡ Some (pat, rest) → IsPattern n tokens pat rest }
    ensures read { (n : ℕ) (tokens rest : List Lexeme) (pat : Pat Span) → IsPattern n tokens pat rest → ends_pattern rest ≡ true → pattern_at n tokens ≡ Some (pat, rest) }
{}

/// Tokens begin with one type and one pattern at most, of those that could not go on.
pub fn one_type_and_one_pattern()
    ensures types { (n : ℕ) (tokens first second : List Lexeme) (a b : Written) → IsType n tokens a first → ends_type first ≡ true → IsType n tokens b second → ends_type second ≡ true → a ≡ b }
    ensures patterns { (n : ℕ) (tokens first second : List Lexeme) (a b : Pat Span) → IsPattern n tokens a first → ends_pattern first ≡ true → IsPattern n tokens b second → ends_pattern second ≡ true → a ≡ b }
{}

/// Reading from left to right gives exactly the expression that tokens begin with, where what follows could not go on
/// with it. Chains of operators are not grouped.
pub fn expressions_are_read()
    ensures spelled { (n : ℕ) (tokens rest : List Lexeme) (exp : Expr Span) → expression_at n tokens ≡ Some (exp, rest) → IsExpression n tokens exp rest }
    ensures read { (n : ℕ) (tokens rest : List Lexeme) (exp : Expr Span) → IsExpression n tokens exp rest → ends_expression rest ≡ true → expression_at n tokens ≡ Some (exp, rest) }
{}

/// Reading from left to right gives exactly the block of local declarations that tokens begin with.
pub fn locals_are_read()
    ensures spelled { (n : ℕ) (tokens rest : List Lexeme) (locals : List (Local Span)) → locals_at n tokens ≡ Some (locals, rest) → IsLocals n tokens locals rest }
    ensures read { (n : ℕ) (tokens rest : List Lexeme) (locals : List (Local Span)) → IsLocals n tokens locals rest → locals_at n tokens ≡ Some (locals, rest) }
{}

/// Reading from left to right gives exactly the clause that tokens begin with, where what follows could not go on with it.
pub fn clauses_are_read()
    ensures spelled { (n : ℕ) (tokens rest : List Lexeme) (name : List ℕ) (row : Alt Span) → clause_over n (expression_at n) (locals_at n) tokens ≡ Some ((name, row), rest) → IsClause (IsLeftSide (IsPattern n) (IsApat (IsPattern n))) (IsExpression n) (IsLocals n) tokens (name, row) rest }
    ensures read { (n : ℕ) (tokens rest : List Lexeme) (name : List ℕ) (row : Alt Span) → IsClause (IsLeftSide (IsPattern n) (IsApat (IsPattern n))) (IsExpression n) (IsLocals n) tokens (name, row) rest → ends_clause rest ≡ true → clause_over n (expression_at n) (locals_at n) tokens ≡ Some ((name, row), rest) }
{}

/// Tokens begin with one expression at most, of those that could not go on, and with one block of local declarations.
pub fn one_expression_and_one_block()
    ensures expressions { (n : ℕ) (tokens first second : List Lexeme) (a b : Expr Span) → IsExpression n tokens a first → ends_expression first ≡ true → IsExpression n tokens b second → ends_expression second ≡ true → a ≡ b }
    ensures blocks { (n : ℕ) (tokens first second : List Lexeme) (a b : List (Local Span)) → IsLocals n tokens a first → IsLocals n tokens b second → a ≡ b }
{}

/// Reading from left to right gives exactly the item that tokens begin with, before a semicolon or a closing brace.
pub fn items_are_read()
    ensures spelled { (n : ℕ) (tokens rest : List Lexeme) (item : Item) → item_at n tokens ≡ Some (item, rest) → IsItem n tokens item rest }
    ensures read { (n : ℕ) (tokens rest : List Lexeme) (item : Item) → IsItem n tokens item rest → ends_entry rest ≡ true → item_at n tokens ≡ Some (item, rest) }
{}

/// Tokens begin with one item at most, before a semicolon or a closing brace.
pub fn one_item()
    ensures { (n : ℕ) (tokens first second : List Lexeme) (a b : Item) → IsItem n tokens a first → ends_entry first ≡ true → IsItem n tokens b second → ends_entry second ≡ true → a ≡ b }
{}

/// Tokens spell one program at most, whatever stands inside what. Its chains of operators are not grouped.
pub fn one_program()
    ensures { (tokens : List Token) (a b : Program Span) → Spells tokens a → Spells tokens b → a ≡ b }
{}

/// What is an item with some levels inside is one with more.
pub fn items_may_be_deeper()
    ensures { (more n : ℕ) (tokens rest : List Lexeme) (item : Item) → IsItem n tokens item rest → IsItem (more + n) tokens item rest }
{}

/// An item needs no more levels inside than it has tokens.
pub fn items_need_no_more()
    ensures { (k n : ℕ) (tokens rest : List Lexeme) (item : Item) → length tokens ≤ n → IsItem k tokens item rest → IsItem n tokens item rest }
{}

/// A reader with a level for each token reads what it would read with any more.
pub fn levels_are_enough()
    ensures types { (n : ℕ) (tokens : List Lexeme) → length tokens ≤ n → type_at n tokens ≡ type_at (length tokens) tokens }
    ensures patterns { (n : ℕ) (tokens : List Lexeme) → length tokens ≤ n → pattern_at n tokens ≡ pattern_at (length tokens) tokens }
    ensures expressions { (n : ℕ) (tokens : List Lexeme) → length tokens ≤ n → expression_at n tokens ≡ expression_at (length tokens) tokens }
    ensures blocks { (n : ℕ) (tokens : List Lexeme) → length tokens ≤ n → locals_at n tokens ≡ locals_at (length tokens) tokens }
    ensures items { (n : ℕ) (tokens : List Lexeme) → length tokens ≤ n → item_at n tokens ≡ item_at (length tokens) tokens }
{}

/// Reading from left to right gives exactly the runs of items between the outer braces.
pub fn frames_are_read()
    ensures framed { (tokens : List Lexeme) (runs : List (List Lexeme × Lexeme)) → frame_at tokens ≡ Some runs → IsFrame tokens runs }
    ensures read { (tokens : List Lexeme) (runs : List (List Lexeme × Lexeme)) → IsFrame tokens runs → frame_at tokens ≡ Some runs }
{}

/// Reading from left to right gives exactly the program that tokens spell, and exactly the place where they spell none.
pub fn programs_are_read()
    ensures spelled { (n : ℕ) (tokens : List Token) (program : Program Span) → program_at n tokens ≡ Ok program → Spells tokens program }
    ensures read { (n : ℕ) (tokens : List Token) (program : Program Span) → length tokens ≤ n → Spells tokens program → program_at n tokens ≡ Ok program }
    ensures broken { (n : ℕ) (tokens : List Token) (at : Place) → length tokens ≤ n → program_at n tokens ≡ Err at → IsNotOfTheGrammar tokens at }
    ensures refused { (n : ℕ) (tokens : List Token) (at : Place) → length tokens ≤ n → IsNotOfTheGrammar tokens at → program_at n tokens ≡ Err at }
{}

/// Tokens either spell a program or do not, and where they do not, one place is named.
pub fn one_place()
    ensures either { (tokens : List Token) → ((program : Program Span) × Spells tokens program) ⊎ ((at : Place) × IsNotOfTheGrammar tokens at) }
    ensures apart { (tokens : List Token) (program : Program Span) (at : Place) → Spells tokens program → IsNotOfTheGrammar tokens at → ⊥ }
    ensures place { (tokens : List Token) (a b : Place) → IsNotOfTheGrammar tokens a → IsNotOfTheGrammar tokens b → a ≡ b }
{}

/// A declaration has more levels, once its chains are grouped, than frames; so a clause with more frames than levels are
/// allowed has no tree.
pub fn deep_trees_are_broken()
    ensures declarations { (strength : List ℕ → Strength) (a b : Decl Span) → IsDeclarationResolved strength a b → frames_of_declaration a < declaration_levels (declaration (λ span. span) b) }
    ensures clauses { (strength : List ℕ → Strength) (row : Alt Span) → max_levels < frames_of_row row → IsRowBroken strength row }
{}

/// Where some items are too deep, what is kept of the program tells the place that is named: that of what is broken
/// there, or else that of the first item that is too deep.
pub fn deep_items_are_named()
    ensures none { (items : List Item) → first_deep items ≡ None → shallow items ≡ items }
    ensures earlier { (n : ℕ) (runs : List (List Lexeme × Lexeme)) (items : List Item) (at place : Place) → items_at n runs ≡ Ok items → first_deep items ≡ Some at → FirstDeclarationBroken (strength_of_name (of_items (shallow items)).decls) (of_items (shallow items)).decls place → FirstDeclarationBroken (strength_of_name (of_items items).decls) (of_items items).decls place }
    ensures there { (n : ℕ) (runs : List (List Lexeme × Lexeme)) (items : List Item) (at : Place) (program : Program Span) → items_at n runs ≡ Ok items → first_deep items ≡ Some at → IsProgramResolved (of_items (shallow items)) program → FirstDeclarationBroken (strength_of_name (of_items items).decls) (of_items items).decls at }
    ensures place { (n : ℕ) (run : List Lexeme) (end : Lexeme) (item : Item) → item_of n (run, end) ≡ Some item → item_place item ≡ (next_spot (whole_run run end)).place }
{}
