// The meaning of expressions and statements, production by production. Each is the contract of a function that does nothing.
ghost use Rattle.std.specs.Prelude.{◌≡◌, ℕ, List, map};
ghost use Rattle.std.specs.List.{flat_map, list_all};
ghost use Rattle.vh_tree.specs.Bits.{Bytes, Bits, slice_of};
ghost use Rattle.vh_tree.specs.Functions.{Scope, World, expr_of, stmt_of, stmts_of, branch_of, first_taken, test_holds};
ghost use Rattle.vh_tree.specs.declared.expr.VExpr.{VExpr};
ghost use Rattle.vh_tree.specs.declared.expr.VExpr.TheVariants.{Name, Slice, Literal, Call, Join};
ghost use Rattle.vh_tree.specs.declared.stmt.VStmt.{VStmt};
ghost use Rattle.vh_tree.specs.declared.stmt.VStmt.TheVariants.{Assign, If};
ghost use Rattle.vh_tree.specs.declared.stmt.Branch.{Branch};

/// The value of an expression, production by production.
pub fn expression_law()
    ensures name { (x : Bytes) (s : Scope) → expr_of (Name x) s ≡ s.value x }
    ensures slice { (x : Bytes) (a b : ℕ) (s : Scope) → expr_of (Slice x a b) s ≡ slice_of a b (s.value x) }
    ensures literal { (bits : Bits) (s : Scope) → expr_of (Literal bits) s ≡ bits }
    ensures call { (f : Bytes) (args : List VExpr) (s : Scope) → expr_of (Call f args) s ≡ s.call f (map (λ a. expr_of a s) args) }
    ensures join { (parts : List VExpr) (s : Scope) → expr_of (Join parts) s ≡ flat_map (λ p. expr_of p s) parts }
{}

/// What a statement does to a state of any kind `S`, production by production.
pub fn statement_law<S>()
    ensures assign { (x : Bytes) (e : VExpr) (w : World S) (s : S) → stmt_of S (Assign x e) w s ≡ w.assign x (expr_of e (w.scope s)) s }
    ensures choice { (branches : List Branch) (other : List VStmt) (w : World S) (s : S) → stmt_of S (If branches other) w s ≡ first_taken S (map (branch_of S) branches) (stmts_of S other) w s }
    ensures branch { (b : Branch) → branch_of S b ≡ (λ w s. list_all (λ t. test_holds S t w s) b.tests, stmts_of S b.body) }
{}
