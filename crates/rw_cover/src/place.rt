// The sooner of two places in a source.
ghost use Rattle.std.specs.Prelude.{◌≡◌, if◌then◌else◌};
ghost use Rattle.rw_cover.specs.Walk.{sooner as sooner_of};

use rw_base::Place;
use rw_scope_rules::stands_before;

// The sooner of two places, or the one that is there.
pub fn sooner(one: Option<Place>, other: Option<Place>) -> Option<Place>
    ensures { result ≡ sooner_of one other }
{
    match (one, other) {
        (None, _) => other,
        (_, None) => one,
        (Some(p), Some(q)) => Some(if stands_before(q, p) { q } else { p }),
    }
}

// The place, where the rows there don't cover.
pub fn unless(covered: bool, place: Place) -> Option<Place>
    ensures { result ≡ (if covered then None else Some place) }
{
    if covered { None } else { Some(place) }
}
