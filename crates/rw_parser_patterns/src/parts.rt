// Parts that are read one by one, and kept where there is room for each.
ghost use Rattle.std.specs.Prelude.{◌≡◌, IfOk};
ghost use Rattle.rw_parser_patterns.specs.Given as given;

use rw_base::OutOfMemory;
use sqlite_items::Items;

/// One more behind others, if all are kept.
pub fn added<T: Drop>(
    all: Option<Items<T>>,
    one: Option<T>,
) -> Result<Option<Items<T>>, OutOfMemory>
    ensures { IfOk result (λ made. made ≡ given.both given.behind all one) }
{
    match (all, one) {
        (Some(mut all), Some(one)) => {
            all.push(one)?;
            Ok(Some(all))
        }
        _ => Ok(None),
    }
}
