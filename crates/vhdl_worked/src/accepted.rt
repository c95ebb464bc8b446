// Designs that break no static rule. Each is the contract of a function that does nothing.
ghost use Rattle.std.specs.Prelude.{◌≡◌, ◌∷◌, [], codes, None};
ghost use Rattle.rw_base.specs.declared.bit.Bit9.TheVariants.{One};
ghost use Rattle.vh_tree.specs.StaticRules.{IsStatic, first_broken};
ghost use Rattle.vh_tree.specs.declared.expr.VExpr.TheVariants.{Name, Literal};
ghost use Rattle.vhdl_worked.specs.Designs.{switch, switch_by, f0_setting, constant, oscillator, wide_switch, joining};

/// The switch breaks no rule.
pub fn switch_is_static()
    ensures { first_broken switch ≡ None }
{}

/// The oscillator breaks no rule: that it never settles is none.
pub fn oscillator_is_static()
    ensures rules { IsStatic oscillator }
    ensures first { first_broken oscillator ≡ None }
{}

/// A join, a literal of all nine values, and the bare name of a function without parameters; a function that uses one
/// declared before it; and an input of 1,024 bits.
pub fn accepted_forms()
    ensures join { first_broken joining ≡ None }
    ensures earlier { first_broken (switch_by (constant (codes "f1") (Literal (One ∷ [])) ∷ f0_setting (Name (codes "f1")) ∷ [])) ≡ None }
    ensures wide { first_broken (wide_switch 1024) ≡ None }
{}
