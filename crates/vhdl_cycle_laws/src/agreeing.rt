// Two worlds that agree: expressions and statements of which the static rules hold have one meaning in both, and so calls
// over flat frames are calls of the design's functions.
ghost use Rattle.vhdl_cycle_flat.specs.Agreeing.{AgreeingExprLaw};
ghost use Rattle.vhdl_cycle_flat.specs.Calling.{FramesLaw};

/// Expressions of which the static rules hold mean the same in scopes that agree.
pub fn agreement_law()
    ensures { AgreeingExprLaw }
{}

/// The frames of a static design's functions give what its functions give.
pub fn frames_law()
    ensures { FramesLaw }
{}
