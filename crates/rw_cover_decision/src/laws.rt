// Laws on coverage: each is the contract of a function that does nothing, for callers to cite.
ghost use Rattle.std.specs.Prelude.{List, Bool};
ghost use Rattle.rw_base.specs.declared.place.Place.{Place};
ghost use Rattle.rw_cover_matrix.specs.Matching.{PlainPattern};
ghost use Rattle.rw_cover_matrix.specs.Coverage.{Decides};
ghost use Rattle.rw_cover.specs.Coverage.{Group, AreUncovered};

/// Of all rows there is an answer that says whether they cover, and of all groups of rows a list of places where they do not.
pub fn coverage_is_decided()
    ensures rows { (rows : List (List PlainPattern)) → (answer : Bool) × Decides answer rows }
    ensures groups { (groups : List Group) → (places : List Place) × AreUncovered groups places }
{}
