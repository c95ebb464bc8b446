// The law, as the contract of a function that does nothing.
ghost use Rattle.std.specs.Prelude.{ℕ, List};
ghost use Rattle.rw_front.specs.Stages.{IsExactAt};
ghost use Rattle.rw_pipe_rules.specs.Verdict.{WholeVerdict};

use inline_ho_laws::instances_have_one_flat_program;
use rw_front::one_verdict;
use rw_guard_rules::one_verdict_on_guards;
use rw_types_laws::one_default_law;

/// There is one verdict at most on each source by the rules E01 to E25: it is one program, with one default typing, one list of
/// instances and one flat program; or it breaks one rule first, at one place.
pub fn one_whole_verdict()
    ensures { (bytes : List ℕ) → IsExactAt WholeVerdict bytes }
{
    one_verdict();
    one_default_law();
    instances_have_one_flat_program();
    one_verdict_on_guards();
}
