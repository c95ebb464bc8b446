// A design of the VHDL subset as a representation of devices.
ghost use Rattle.rw_pass.specs.Designs.{design_denotes, design_statements, IsFitDesign};

use crate::Denotes;
use vh_tree::Design;

/// A design denotes what the bench reads of it, has the widths of `inp` and `outp`, is as large as it has sequential statements, and
/// is fit where a text spells it and it keeps the static rules.
impl Denotes for Design {
    ghost denotes = { λ d. design_denotes d };

    ghost in_width = { λ d. d.inp };

    ghost out_width = { λ d. d.outp };

    ghost size = { λ d. design_statements d };

    ghost is_fit = { λ d. IsFitDesign d };
}
