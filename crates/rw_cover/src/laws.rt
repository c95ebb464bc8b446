// Laws of the definitions: each is the contract of a function that does nothing.
ghost use Rattle.std.specs.Prelude.{◌≡◌, ◌∷◌, [], List, Bool, false};
ghost use Rattle.rw_base.specs.declared.place.Place.{Place};
ghost use Rattle.rw_cover_matrix.specs.Values.{Shapes, Values, AreValues};
ghost use Rattle.rw_cover_matrix.specs.Matching.{PlainPattern, constructed, no_patterns};
ghost use Rattle.rw_cover_matrix.specs.Coverage.{Covers, Decides, some_row_matches};
ghost use Rattle.rw_cover.specs.Coverage.{AreUncovered, Group};
ghost use Rattle.rw_cover.specs.Correct.{AllHaveTypes};

/// Groups of rows are uncovered at one list of places at most, if the rows of each may stand at some types. Of rows that
/// may stand at none both answers are right, as of a constructor whose type has no constructors.
pub fn places_law()
    ensures one { (groups : List Group) → AllHaveTypes groups → (places others : List Place) → AreUncovered groups places → AreUncovered groups others → places ≡ others }
    ensures untyped { (answer : Bool) → Decides answer ((constructed 0 0 no_patterns ∷ []) ∷ []) }
{}

/// Where rows don't cover columns of some types, there are values of these types that match no row.
pub fn left_over_law()
    ensures { (columns : Shapes) (rows : List (List PlainPattern)) → ¬ Covers columns rows → (given : Values) × AreValues given columns × (some_row_matches rows given ≡ false) }
{}
