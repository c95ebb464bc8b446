// The laws: each is the contract of a function that does nothing.
ghost use Rattle.std.specs.Prelude.{◌≡◌, List};
ghost use Rattle.rw_types_solving.specs.Types.{Ty};
ghost use Rattle.rw_types_rules.specs.Schemes.{World};
ghost use Rattle.specialise_rules.specs.Tables.{Sees};
ghost use Rattle.specialise_tables.specs.Fields.{world_with, fields_in};

/// What a table grows to depends on a world by its types of fields alone, so it is the same in a world that has only these.
pub fn same_fields_law()
    ensures same { (world other : World) → fields_in world ≡ fields_in other → (table types after : List Ty) → Sees world table types after → Sees other table types after }
    ensures alone { (fields : List (List (List Ty))) → fields_in (world_with fields) ≡ fields }
{}
