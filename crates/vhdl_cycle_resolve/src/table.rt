// What a table has of a name of a design.
ghost use Rattle.std.specs.Prelude.{◌≡◌, option_copied};
ghost use Rattle.rw_base_tables.specs.Tables.{known_in};

use rw_base_tables::Table;
use vh_tree::Ident;

// What the name has.
pub fn get<'a, V: Drop>(table: &'a Table<V>, name: &Ident) -> Option<&'a V>
    ensures { option_copied result ≡ known_in table.now name.now }
{
    table.get(name.as_slice())
}
