// Designs that break a static rule, and which one is the first. Each is the contract of a function that does nothing.
ghost use Rattle.std.specs.Prelude.{◌≡◌, ◌∷◌, [], codes, Some};
ghost use Rattle.rw_base.specs.declared.bit.Bit9.TheVariants.{Zero, One};
ghost use Rattle.rw_base.specs.declared.rule.VRule.TheVariants.{V4, V5, V6, V7, V8};
ghost use Rattle.vh_tree.specs.StaticRules.{first_broken};
ghost use Rattle.vh_tree.specs.declared.expr.VExpr.TheVariants.{Name, Slice, Literal, Call, Join};
ghost use Rattle.vh_tree.specs.declared.stmt.Test.TheVariants.{Rising};
ghost use Rattle.vh_tree.specs.declared.stmt.VStmt.TheVariants.{Assign, If};
ghost use Rattle.vhdl_worked.specs.Designs.{one_bit, branch, function_f0, f0_setting, switch_function, switch_showing, switch_by, switch_with, constant, process_of, undriven, switch_of_width, wide_switch, wide_output};

/// V4: `s1`, which is none, is shown; a parameter is read by a third statement, or returned; a signal is declared twice; a call
/// has too few arguments; a function with parameters stands bare; a function tests the clock.
pub fn names_are_judged()
    ensures undeclared { first_broken (switch_showing (Name (codes "s1"))) ≡ Some V4 }
    ensures parameter_read { first_broken (switch_by (f0_setting (Name (codes "p1")) ∷ [])) ≡ Some V4 }
    ensures parameter_returned { first_broken (switch_by (function_f0 (Assign (codes "v2") (Name (codes "v1"))) (Name (codes "p1")) ∷ [])) ≡ Some V4 }
    ensures declared_twice { first_broken (switch_with (one_bit (codes "s0") ∷ []) []) ≡ Some V4 }
    ensures few_arguments { first_broken (switch_showing (Call (codes "f0") (Name (codes "s0") ∷ []))) ≡ Some V4 }
    ensures bare { first_broken (switch_showing (Name (codes "f0"))) ≡ Some V4 }
    ensures clock_in_function { first_broken (switch_by (function_f0 (If (branch (Rising ∷ []) [] ∷ []) []) (Name (codes "v2")) ∷ [])) ≡ Some V4 }
{}

/// V5: a slice out of range; one whose bounds are the wrong way round; two bits shown by a port of one; an argument of two bits for
/// a parameter of one; a function of two bits in place of one; and a signal of more than 2^30 bits, which has no driver either.
pub fn widths_are_judged()
    ensures slice { first_broken (switch_showing (Slice (codes "s0") 1 1)) ≡ Some V5 }
    ensures upwards { first_broken (switch_showing (Slice (codes "s0") 0 1)) ≡ Some V5 }
    ensures sides { first_broken (switch_showing (Join (Name (codes "s0") ∷ Name (codes "s0") ∷ []))) ≡ Some V5 }
    ensures argument { first_broken (switch_showing (Call (codes "f0") (Literal (One ∷ Zero ∷ []) ∷ Name (codes "s0") ∷ []))) ≡ Some V5 }
    ensures result { first_broken (switch_by (constant (codes "f1") (Literal (One ∷ Zero ∷ [])) ∷ f0_setting (Name (codes "f1")) ∷ [])) ≡ Some V5 }
    ensures declared { first_broken (switch_with (record { name = codes "s1"; width = 1073741825 } ∷ []) []) ≡ Some V5 }
{}

/// V6: a second process assigns `s0`; no process assigns a signal, or `outp`.
pub fn drivers_are_judged()
    ensures second { first_broken (switch_with [] (process_of (codes "inp") (Assign (codes "s0") (Name (codes "inp"))) ∷ [])) ≡ Some V6 }
    ensures no_driver { first_broken (switch_with (one_bit (codes "s1") ∷ []) []) ≡ Some V6 }
    ensures no_output { first_broken undriven ≡ Some V6 }
{}

/// V7: a function uses one that is declared after it, even where the widths would not agree; it calls itself; it stands bare in
/// itself. None of these breaks V4.
pub fn order_is_judged()
    ensures later { first_broken (switch_by (f0_setting (Name (codes "f1")) ∷ constant (codes "f1") (Literal (One ∷ [])) ∷ [])) ≡ Some V7 }
    ensures later_width { first_broken (switch_by (f0_setting (Name (codes "f1")) ∷ constant (codes "f1") (Literal (One ∷ Zero ∷ [])) ∷ [])) ≡ Some V7 }
    ensures itself { first_broken (switch_by (f0_setting (Call (codes "f0") (Name (codes "v0") ∷ Name (codes "v1") ∷ [])) ∷ [])) ≡ Some V7 }
    ensures bare { first_broken (switch_by (constant (codes "f1") (Name (codes "f1")) ∷ switch_function ∷ [])) ≡ Some V7 }
{}

/// V8: an input, or an output, of 1,025 bits. Where V5 is broken too it comes first.
pub fn ports_are_judged()
    ensures input { first_broken (wide_switch 1025) ≡ Some V8 }
    ensures output { first_broken (wide_output 1025) ≡ Some V8 }
    ensures widths_first { first_broken (switch_of_width 1025) ≡ Some V5 }
{}
