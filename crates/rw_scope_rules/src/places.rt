// Places at which something is wrong: which of them comes first in a source.
ghost use Rattle.std.specs.Prelude.{◌≡◌};
ghost use Rattle.rw_scope_rules.specs.Names.{earliest as first_of, is_before};

use rw_base::Place;

/// Whether the first of these places stands before the second: on a lesser line, or on the same line in a lesser column.
pub fn stands_before(one: Place, other: Place) -> bool
    ensures { result ≡ is_before one other }
{
    one.line < other.line || one.line == other.line && one.column < other.column
}

/// The place that comes first in the source: on the least line, and there in the least column. None where there is no
/// place.
pub fn earliest(places: &[Place]) -> Option<Place>
    ensures { result ≡ first_of places.now }
{
    let mut first = None;
    let mut at = places.len();
    while at > 0 {
        at -= 1;
        let place = places[at];
        match first {
            Some(found) if stands_before(found, place) => {}
            _ => first = Some(place),
        }
    }
    first
}
