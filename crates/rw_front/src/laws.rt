// Laws: each is the contract of a function that does nothing.
ghost use Rattle.std.specs.Prelude.{ℕ, List};
ghost use Rattle.rw_front.specs.Stages.{IsExactAt};
ghost use Rattle.rw_front.specs.Verdict.{Verdict};

use rw_cover_laws::exact_law;
use rw_lex::{never_both, one_refusal, one_token_list};
use rw_parser_chains::one_program_resolved;
use rw_parser_laws::{one_place, one_program};
use rw_scope_rules::verdict_law;

/// There is one verdict on each source: it is one program, or breaks one rule first, at one place.
pub fn one_verdict()
    ensures { (bytes : List ℕ) → IsExactAt Verdict bytes }
{
    one_token_list();
    never_both();
    one_refusal();
    one_program();
    one_place();
    one_program_resolved();
    verdict_law();
    exact_law();
}
