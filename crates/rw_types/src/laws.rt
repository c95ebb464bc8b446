// Laws of sorts and of shared types: each is the contract of a function that does nothing, or names another law.
ghost use Rattle.std.specs.Prelude.{◌≡◌, ◌↔◌, ◌<◌, ℕ, Bool, true, length, get_or};
ghost use Rattle.rw_types_solving.specs.declared.term.Sort.{Sort as SortOf};
ghost use Rattle.rw_types_solving.specs.Types.{Ty, apply, occurs};
ghost use Rattle.rw_types_solving.specs.Sorts.{Heads, HasSort};
ghost use Rattle.rw_types_solving.specs.Conditions.{is_state_monad, any};
ghost use Rattle.rw_types.specs.declared.typed.TypedDecl.{TypedDecl as PlainTyped};
ghost use Rattle.rw_types.specs.Inferred.{type_of, HasSharedTypes};

use rw_types_shared::types_as_numbers;

/// A type is of one sort alone.
pub fn one_sort()
    ensures { (v : ℕ → SortOf) (w : Heads) (k l : SortOf) (a : Ty) → HasSort v w k a → HasSort v w l a → k ≡ l }
{}

/// A type is of the sort of its instance, where each variable that occurs in it has the sort of what stands for it.
pub fn general_sort()
    ensures { (v : ℕ → SortOf) (w : Heads) (sorts : ℕ → SortOf) (k : SortOf) (t : ℕ → Ty) (a : Ty) → HasSort v w k (apply t a) → ((y : ℕ) → occurs y a ≡ true → HasSort v w (sorts y) (t y)) → HasSort sorts w k a }
{}

/// A type whose instance is a state monad may be one.
pub fn general_state_monad()
    ensures { (y u : ℕ → Bool) (t : ℕ → Ty) (a : Ty) → is_state_monad y u (apply t a) ≡ true → is_state_monad any u a ≡ true }
{}

/// Where each type stands once, two numbers of a declaration have the same type exactly where they have the same place in its table.
pub fn same_types()
    ensures { (d : PlainTyped) → HasSharedTypes d → (x y : ℕ) → x < length d.types → y < length d.types →
        (type_of d.nodes d.types x ≡ type_of d.nodes d.types y) ↔ (get_or d.types x 0 ≡ get_or d.types y 0) }
{
    types_as_numbers();
}
