// From bytes to a tree: the rules E01 to E05.
ghost use Rattle.rw_front.specs.Stages.{AnswersBy};
ghost use Rattle.rw_front.specs.Verdict.{IsShort, HasTokens, IsLaidOut, IsParsed, IsRead};

use rw_base::{Fail, Place, Refusal, Rule, Span};
use rw_layout::lay_out;
use rw_lex::{Token, lex};
use rw_parser::parse;
use rw_tree::Program;
use std::alloc::Global;

// The most bytes of a source.
const MOST_BYTES: usize = 262_144;

/// The tree that a source spells, with its chains of operators grouped, or the first of the rules E01 to E05 that it breaks.
pub fn read(alloc: Global, bytes: &[u8]) -> Result<Program<Span>, Fail>
    ensures { AnswersBy IsRead (λ program. program) bytes.now result }
{
    if bytes.len() > MOST_BYTES {
        return Err(Fail::Refused(Refusal {
            rule: Rule::E01,
            place: Place::START,
        }));
    }
    let tokens = lex(alloc, bytes)?;
    let laid = lay_out(alloc, &tokens)?;
    parse(alloc, &laid)
}
