// Laws of the layout: what it keeps, and what it makes sure of. No code calls them.
ghost use Rattle.std.specs.Prelude.{◌≡◌, List, Ok, Err, IsTrue};
ghost use Rattle.rw_base.specs.declared.fail.Refusal.{Refusal};
ghost use Rattle.rw_base.specs.declared.rule.Rule.TheVariants as rule;
ghost use Rattle.rw_lex.specs.declared.token.Token.{Token};
ghost use Rattle.rw_layout.specs.Layout.{layout_of, last_place};
ghost use Rattle.rw_layout.specs.Laws.{IsFilled, IsBalanced, is_explicit};

/// A layout is the tokens, in their order, with nothing but braces and semicolons put between them, each at the place of
/// the next token.
pub fn layout_keeps_tokens()
    ensures { (tokens filled : List Token) → layout_of tokens ≡ Ok filled → IsFilled (last_place tokens) tokens filled }
{}

/// The braces and parentheses of a layout match.
pub fn layout_is_balanced()
    ensures { (tokens filled : List Token) → layout_of tokens ≡ Ok filled → IsBalanced filled }
{}

/// Where all blocks are written, nothing is inserted.
pub fn explicit_stays()
    ensures { (tokens filled : List Token) → IsTrue (is_explicit tokens) → layout_of tokens ≡ Ok filled → filled ≡ tokens }
{}

/// A layout refuses by E04 alone.
pub fn refused_by_e04()
    ensures { (tokens : List Token) (refusal : Refusal) → layout_of tokens ≡ Err refusal → refusal.rule ≡ rule.E04 }
{}
