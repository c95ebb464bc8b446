// Laws of reading: each is the contract of a function that does nothing, for callers to cite.
ghost use Rattle.std.specs.Prelude.{◌≡◌, ◌↔◌, List, ℕ, Some};
ghost use Rattle.vh_tree.specs.declared.token.Token.{Token};
ghost use Rattle.vh_tree.specs.declared.design.Design.{Design};
ghost use Rattle.vh_tree.specs.Text.{IsText};
ghost use Rattle.vh_tree.specs.Spelling.{IsJudged, IsSpelled, SpellsDesign};
ghost use Rattle.vh_tree_reading.specs.Scan.{scanned};
ghost use Rattle.vh_tree_reading.specs.ReadDesign.{design_of};
ghost use Rattle.vh_tree_reading.specs.Laws.{FirstBrokenLaw};

/// Reading from left to right gives exactly the tokens that a text spells.
pub fn tokens_are_scanned()
    ensures { (bytes : List ℕ) (tokens : List Token) → IsText bytes tokens ↔ (scanned bytes ≡ Some tokens) }
{}

/// Reading from left to right, with one token of lookahead, gives exactly the design that tokens spell.
pub fn designs_are_read()
    ensures { (tokens : List Token) (design : Design) → SpellsDesign tokens design ↔ (design_of tokens ≡ Some design) }
{}

/// A text spells one design at most.
pub fn one_design_for_a_text()
    ensures { (bytes : List ℕ) (a b : Design) → IsSpelled bytes a → IsSpelled bytes b → a ≡ b }
{}

/// Every text spells a design, or breaks one of the rules V1 to V3, which are judged in order over the whole text.
pub fn every_text_is_judged()
    ensures { (bytes : List ℕ) → IsJudged bytes }
{}

/// There is a first broken rule exactly where not all static rules hold.
pub fn first_broken_law()
    ensures { FirstBrokenLaw }
{}
