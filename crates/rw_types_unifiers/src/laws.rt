// Laws on unifiers: each is the contract of a function that does nothing, for callers to cite.
ghost use Rattle.std.specs.Prelude.{◌⊎◌, ℕ, List};
ghost use Rattle.rw_types_solving.specs.Types.{Ty};
ghost use Rattle.rw_types_unifiers.specs.Unifiers.{Unifies, AreWithin, IsMostGeneralUnifier};

/// Equations between types of so many variables have a most general unifier, or no substitution unifies them.
pub fn equations_are_solved()
    ensures { (n : ℕ) (equations : List (Ty × Ty)) → AreWithin n equations → ((s : ℕ → Ty) × IsMostGeneralUnifier n equations s) ⊎ ((t : ℕ → Ty) → Unifies t equations → ⊥) }
{}
