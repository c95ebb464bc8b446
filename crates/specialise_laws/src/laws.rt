// The laws: each is the contract of a function that does nothing.
ghost use Rattle.std.specs.Prelude.{◌≡◌, ◌↔◌, ◌+◌, ◌≤◌, ℕ, suc, true, false, List, [], ◌∷◌, ◌++◌, take, length};
ghost use Rattle.rw_tree.specs.Declarations.{Declaration};
ghost use Rattle.rw_types_solving.specs.Types.{Ty};
ghost use Rattle.rw_types_rules.specs.Schemes.{World};
ghost use Rattle.rw_types_rules.specs.TypedTrees.{TypedNode};
ghost use Rattle.specialise_rules.specs.Instances.{Instance, same_type, same_instance, is_among, start_from, mentioned, first_missing, next_instance, first_instances};
ghost use Rattle.specialise_rules.specs.Tables.{Sees};
ghost use Rattle.specialise_rules.specs.Limits.{IsTooMuch, IsFirstTooMuch, AreInstances};
ghost use Rattle.specialise_laws.specs.Looking.{IsLeft, AreFirst, AreWithin};

/// The tests of types and of instances are equality.
pub fn same_law()
    ensures types { (t u : Ty) → (same_type t u ≡ true) ↔ (t ≡ u) }
    ensures instances { (i j : Instance) → (same_instance i j ≡ true) ↔ (i ≡ j) }
{}

/// Where a list is the first instances, as many as it has, its fronts are the first instances too. The first instances are a
/// front of more of them.
pub fn fronts_law()
    ensures fronts { (typed : List (Declaration TypedNode)) (list : List Instance) (m : ℕ) → AreFirst typed list → m ≤ length list → first_instances typed m ≡ take m list }
    ensures more { (typed : List (Declaration TypedNode)) (m k : ℕ) → (more : List Instance) × (first_instances typed m ++ more ≡ first_instances typed (m + k)) }
{}

/// What is left to look through decides which instance is next: the first of it that isn't listed. One that is listed is passed
/// over; of one that isn't, what it names is looked through last.
pub fn left_law()
    ensures next { (typed : List (Declaration TypedNode)) (list left : List Instance) → IsLeft typed list left → next_instance typed list ≡ first_missing list left }
    ensures begins { (typed : List (Declaration TypedNode)) → IsLeft typed [] (start_from 0 typed) }
    ensures known { (typed : List (Declaration TypedNode)) (list left : List Instance) (i : Instance) → IsLeft typed list (i ∷ left) → is_among i list ≡ true → IsLeft typed list left }
    ensures new { (typed : List (Declaration TypedNode)) (list left : List Instance) (i : Instance) → IsLeft typed list (i ∷ left) → IsLeft typed (list ++ i ∷ []) (left ++ mentioned typed i) }
{}

/// Where a list is the first instances, it is so with the next one, and where there is no next one it is so of any greater
/// number.
pub fn all_listed_law()
    ensures next { (typed : List (Declaration TypedNode)) (list : List Instance) (i : Instance) → AreFirst typed list → next_instance typed list ≡ i ∷ [] → AreFirst typed (list ++ i ∷ []) }
    ensures last { (typed : List (Declaration TypedNode)) (list : List Instance) (n : ℕ) → AreFirst typed list → next_instance typed list ≡ [] → length list ≤ n → list ≡ first_instances typed n }
{}

/// Seeing types, a table grows to one table at most.
pub fn one_table_law()
    ensures { (world : World) (table types first second : List Ty) → Sees world table types first → Sees world table types second → first ≡ second }
{}

/// A table grows behind. Types are seen one list after the other exactly where they are seen in turn.
pub fn table_law()
    ensures behind { (world : World) (table types after : List Ty) → Sees world table types after → (more : List Ty) × (after ≡ table ++ more) }
    ensures in_turn { (world : World) (table types others after : List Ty) → Sees world table (types ++ others) after ↔ ((between : List Ty) × Sees world table types between × Sees world between others after) }
{}

/// Where the listed instances are within the limits, the next one is the first that is too much where it is too much, and where
/// there is no next one they are the instances of the program.
pub fn first_too_much_law()
    ensures much { (world : World) (typed : List (Declaration TypedNode)) (list : List Instance) (table : List Ty) (i : Instance) → AreWithin world typed list table → next_instance typed list ≡ i ∷ [] → IsTooMuch world typed (length list) i → IsFirstTooMuch world typed (length list) i }
    ensures all { (world : World) (typed : List (Declaration TypedNode)) (list : List Instance) (table : List Ty) → AreWithin world typed list table → next_instance typed list ≡ [] → AreInstances world typed list }
{}
