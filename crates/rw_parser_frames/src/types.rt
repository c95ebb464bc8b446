// The frames of types: an arrow and the type behind it (Haskell 2010 Report, section 4.1.2).
ghost use Rattle.std.specs.Prelude.{◌≡◌, min};
ghost use Rattle.rw_parser_reading.specs.Frames.{frames_of_type, most};

use crate::bounded::one_more;
use rw_tree::Written;

/// How many frames stand inside one another in a type, or `bound` where there are more.
#[cycle(types)]
#[tactic(auto, using(crate::proofs::Counts::type_counts))]
pub fn type_frames(bound: usize, written: &Written) -> usize
    ensures { result ≡ min bound (frames_of_type written.now) }
{
    match written {
        Written::Var(_) | Written::Con(_) => 0,
        Written::Apply(head, parts) => {
            type_frames(bound, head.get()).max(types_frames(bound, parts.as_slice()))
        }
        Written::Fun(from, to) => {
            type_frames(bound, from.get()).max(one_more(bound, type_frames(bound, to.get())))
        }
        Written::Tuple(parts) => types_frames(bound, parts.as_slice()),
    }
}

// The most that one of several types has.
#[cycle(types)]
fn types_frames(bound: usize, types: &[Written]) -> usize
    ensures { result ≡ min bound (most frames_of_type types.now) }
{
    let mut frames = 0;
    for written in types {
        frames = frames.max(type_frames(bound, written));
    }
    frames
}
