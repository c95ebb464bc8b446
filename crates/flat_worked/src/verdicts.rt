// Programs that break a rule: each fact is the contract of a function that does nothing.
ghost use Rattle.std.specs.Prelude.{Some};
ghost use Rattle.rw_base.specs.declared.rule.Rule.TheVariants.{E19, E21, E22};
ghost use Rattle.rw_guard_rules.specs.Verdict.{GuardsAs};
ghost use Rattle.flat_worked.specs.Broken.{recursing, spinning, returning, refused};

/// A function that calls itself is refused by E19.
pub fn a_loop_recurses()
    ensures { GuardsAs recursing (Some (refused E19)) }
{}

/// A device that calls itself without a signal, in tail position, is refused by E21.
pub fn a_device_spins()
    ensures { GuardsAs spinning (Some (refused E21)) }
{}

/// A device that returns before a signal is refused by E22.
pub fn a_device_returns()
    ensures { GuardsAs returning (Some (refused E22)) }
{}
