// Typings of small programs. Each is the contract of a function that does nothing.
ghost use Rattle.std.specs.Prelude.{ℕ, Bool};
ghost use Rattle.rw_types_solving.specs.declared.term.Sort.{Sort};
ghost use Rattle.rw_types_rules.specs.Typings.{IsTyping, IsTypable};
ghost use Rattle.source_worked.specs.TypedPrograms.{same_world, same, same_typed, turned_world, turned, turned_typed, device_world, shows_unit};

/// `f :: a -> a; f x = x`: the variable of the signature is an unknown type, and the typing needs no other variable.
pub fn the_identity_is_typed()
    ensures { (sorts : ℕ → Sort) (states : ℕ → Bool) → IsTyping sorts states same_world same same_typed }
{}

/// `g :: Bit -> Bit; g x = case x of { Zero -> One; One -> Zero }`.
pub fn a_case_turns_a_bit()
    ensures { (sorts : ℕ → Sort) (states : ℕ → Bool) → IsTyping sorts states turned_world turned turned_typed }
{}

/// `start :: ReT Bit Bit I (); start = signal ()`: what it shows is no `Bit`, and so it has no typing.
pub fn a_device_that_shows_the_wrong_type_is_untypable()
    ensures { IsTypable device_world shows_unit → ⊥ }
{}
