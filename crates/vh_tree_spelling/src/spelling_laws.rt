// Laws of the canonical text: each is the contract of a function that does nothing, for callers to cite.
ghost use Rattle.std.specs.Prelude.{◌≡◌, ◌∷◌, ◌++◌, [], List, map, ℕ};
ghost use Rattle.rw_base.specs.declared.bit.Bit9.{Bit9};
ghost use Rattle.vh_tree.specs.declared.token.Mark.TheVariants as m;
ghost use Rattle.vh_tree.specs.declared.token.Token.TheVariants as t;
ghost use Rattle.vh_tree.specs.declared.token.Side.{Side};
ghost use Rattle.vh_tree.specs.declared.expr.VExpr.{VExpr};
ghost use Rattle.vh_tree.specs.declared.expr.VExpr.TheVariants as w;
ghost use Rattle.vh_tree.specs.declared.stmt.Test.{Test};
ghost use Rattle.vh_tree.specs.declared.stmt.VStmt.{VStmt};
ghost use Rattle.vh_tree.specs.declared.stmt.VStmt.TheVariants as s;
ghost use Rattle.vh_tree.specs.declared.stmt.Branch.{Branch};
ghost use Rattle.vh_tree.specs.declared.design.Design.{Design};
ghost use Rattle.vh_tree.specs.VToken.{assign_mark, marks, name_token};
ghost use Rattle.vh_tree.specs.Spelling.{IsSpelled};
ghost use Rattle.vh_tree.specs.Spellable.{IsSpellable};
ghost use Rattle.vh_tree.specs.Canonical.{branch_tokens, canonical_text, else_tokens, expr_tokens, range_tokens, separated, stmt_tokens, stmts_tokens, test_tokens};

/// Where any text spells a design, the canonical text of the design spells it.
pub fn canonical_text_spells()
    ensures { (bytes : List ℕ) (design : Design) → IsSpelled bytes design → IsSpelled (canonical_text design) design }
{}

/// The canonical text of a design that can be spelled spells it.
pub fn spellable_designs_are_spelled()
    ensures { (design : Design) → IsSpellable design → IsSpelled (canonical_text design) design }
{}

/// A design that any text spells can be spelled: the conditions on a tree ask no more than the grammar.
pub fn spelled_designs_are_spellable()
    ensures { (bytes : List ℕ) (design : Design) → IsSpelled bytes design → IsSpellable design }
{}

/// The canonical tokens of each form of expression.
pub fn tokens_of_expressions()
    ensures name { (x : List ℕ) → expr_tokens (w.Name x) ≡ name_token x ∷ [] }
    ensures slice { (x : List ℕ) (a b : ℕ) → expr_tokens (w.Slice x a b) ≡ name_token x ∷ range_tokens a b }
    ensures literal { (bits : List Bit9) → expr_tokens (w.Literal bits) ≡ t.Bits bits ∷ [] }
    ensures call { (f : List ℕ) (arguments : List VExpr) → expr_tokens (w.Call f arguments) ≡ name_token f ∷ t.Mark m.Opens ∷ (separated m.Comma (map expr_tokens arguments) ++ t.Mark m.Closes ∷ []) }
    ensures join { (parts : List VExpr) → expr_tokens (w.Join parts) ≡ separated m.Amp (map expr_tokens parts) }
{}

/// The canonical tokens of each form of statement, and of a branch.
pub fn tokens_of_statements()
    ensures assign { (side : Side) (x : List ℕ) (e : VExpr) → stmt_tokens side (s.Assign x e) ≡ name_token x ∷ t.Mark (assign_mark side) ∷ (expr_tokens e ++ t.Mark m.Semicolon ∷ []) }
    ensures choice { (side : Side) (branches : List Branch) (other : List VStmt) → stmt_tokens side (s.If branches other) ≡ t.Mark m.If ∷ (separated m.Elsif (map (branch_tokens side) branches) ++ (else_tokens (map (stmt_tokens side) other) ++ marks (m.End ∷ m.If ∷ m.Semicolon ∷ []))) }
    ensures branch { (side : Side) (tests : List Test) (body : List VStmt) → branch_tokens side (record { tests = tests; body = body }) ≡ separated m.And (map test_tokens tests) ++ t.Mark m.Then ∷ stmts_tokens side body }
{}
