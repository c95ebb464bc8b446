// Places at which something is wrong.
ghost use Rattle.std.specs.Prelude.{◌≡◌, ◌++◌, OnOk};
ghost use Rattle.rw_scope_rules.specs.Names.{at_if};

use rw_base::{OutOfMemory, Place};

// Appends the place, where something is wrong there.
pub fn push_if(places: &mut Vec<Place>, wrong: bool, place: Place) -> Result<(), OutOfMemory>
    ensures { OnOk result (places.new.items ≡ places.old.items ++ at_if wrong place) }
{
    if wrong {
        places.push(place)?;
    }
    Ok(())
}
