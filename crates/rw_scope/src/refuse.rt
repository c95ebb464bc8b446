// A rule that is broken at some places is refused at the first of them.
ghost use Rattle.std.specs.Prelude.{None};
ghost use Rattle.rw_scope_rules.specs.Names.{earliest as first_of};
ghost use Rattle.rw_scope_rules.specs.Verdict.{broken_first};
ghost use Rattle.rw_base.specs.Answers.{IsJudged};

use rw_base::{Fail, Place, Refusal, Rule};
use rw_scope_rules::earliest;

// Refuses by this rule at the place that comes first in the source, if there is one.
pub fn refuse(rule: Rule, places: &[Place]) -> Result<(), Fail>
    ensures { IsJudged (broken_first rule (first_of places.now) None) result }
{
    match earliest(places) {
        None => Ok(()),
        Some(place) => Err(Fail::Refused(Refusal { rule, place })),
    }
}
