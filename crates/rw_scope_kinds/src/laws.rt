// A law of the definition of E11: it is the contract of a function that does nothing.
ghost use Rattle.std.specs.Prelude.{◌≡◌, ℕ, List, true};
ghost use Rattle.rw_scope_rules.specs.Names.{Bytes, is_among};
ghost use Rattle.rw_scope_rules.specs.Kinds.{is_recursive, mentioned_by, reached};

/// A data type that leads to itself in some number of steps is recursive, however many they are: as many steps as there are
/// data types, to which the definition goes, are enough.
pub fn recursion_law()
    ensures { (data_types : List (Bytes × List Bytes)) (x : Bytes) (steps : ℕ) → is_among x (reached data_types steps (mentioned_by data_types x)) ≡ true → is_recursive data_types x ≡ true }
{}
