// E16, broken and kept. Each is the contract of a function that does nothing.
ghost use Rattle.std.specs.Prelude.{◌≡◌, ◌∷◌, [], codes, Some, None};
ghost use Rattle.rw_base.specs.declared.rule.Rule.TheVariants.{E16};
ghost use Rattle.rw_tree.specs.Trees.{constructor, lambda};
ghost use Rattle.source_worked.specs.StartPrograms.{at, broken_at, named, device, mention, apply, binder, clause, clause_where, local_name, function_on, started, by_clauses, with_body, row};

/// Applications of `par` to two expressions and of `refold` to three make systems, also where one argument comes after the other,
/// inside one another too.
pub fn systems_are_taken_apart()
    ensures pair { with_body (apply 2 9 (mention 2 9 "par") (mention 2 13 "run" ∷ mention 2 17 "run" ∷ [])) ≡ None }
    ensures feedback { with_body (apply 2 9 (mention 2 9 "refold") (mention 2 16 "f" ∷ mention 2 18 "g" ∷ mention 2 20 "run" ∷ [])) ≡ None }
    ensures halves { with_body (apply 2 9 (apply 2 10 (mention 2 10 "par") (mention 2 14 "run" ∷ [])) (mention 2 19 "run" ∷ [])) ≡ None }
    ensures inside { with_body (apply 2 9 (mention 2 9 "refold") (mention 2 16 "f" ∷ mention 2 18 "g" ∷ apply 2 21 (mention 2 21 "par") (mention 2 25 "run" ∷ mention 2 29 "run" ∷ []) ∷ [])) ≡ None }
{}

/// `start = signal True >>= \x -> refold id const start` is refused at `refold`. Neither of the two stands in a device, in what a
/// device is fed back by, alone, in a `where` of `start`, or in another declaration; local names of the same spelling may.
pub fn operations_stand_in_place()
    ensures bound { with_body (apply 2 9 (mention 2 21 ">>=") (apply 2 9 (mention 2 9 "signal") (constructor (at 2 16) (codes "True") ∷ []) ∷ lambda (at 2 25) (binder 2 26 "x" ∷ []) (apply 2 31 (mention 2 31 "refold") (mention 2 38 "id" ∷ mention 2 41 "const" ∷ mention 2 47 "start" ∷ [])) ∷ [])) ≡ Some (broken_at E16 2 31) }
    ensures in_device { with_body (apply 2 9 (mention 2 9 "par") (mention 2 13 "run" ∷ apply 2 18 (mention 2 18 "id") (mention 2 21 "par" ∷ []) ∷ [])) ≡ Some (broken_at E16 2 21) }
    ensures in_feedback { with_body (apply 2 9 (mention 2 9 "refold") (mention 2 16 "f" ∷ mention 2 18 "refold" ∷ mention 2 25 "run" ∷ [])) ≡ Some (broken_at E16 2 18) }
    ensures alone { with_body (mention 2 9 "par") ≡ Some (broken_at E16 2 9) }
    ensures half { with_body (apply 2 9 (mention 2 9 "par") (mention 2 13 "run" ∷ [])) ≡ Some (broken_at E16 2 9) }
    ensures in_where { by_clauses (clause_where 2 [] (mention 2 9 "run") (local_name 3 3 "x" (mention 3 7 "par") ∷ []) ∷ []) ≡ Some (broken_at E16 3 7) }
    ensures elsewhere { started (device (named "Bool") (named "Bool")) (clause 2 [] (mention 2 9 "run") ∷ []) (function_on 3 "run" (clause 3 [] (mention 3 7 "par") ∷ []) ∷ []) ≡ Some (broken_at E16 3 7) }
    ensures local { started (device (named "Bool") (named "Bool")) (clause 2 [] (mention 2 9 "run") ∷ []) (function_on 3 "run" (clause 3 (binder 3 5 "par" ∷ []) (mention 3 11 "par") ∷ []) ∷ []) ≡ None }
{}

/// Where the body of `start` is a system, `start` is named nowhere; else it may be. Of several places the first in the source counts.
pub fn names_of_start_are_judged()
    ensures in_system { with_body (apply 2 9 (mention 2 9 "par") (mention 2 13 "start" ∷ mention 2 19 "run" ∷ [])) ≡ Some (broken_at E16 2 13) }
    ensures elsewhere { started (device (named "Bool") (named "Bool")) (clause 2 [] (apply 2 9 (mention 2 9 "par") (mention 2 13 "run" ∷ mention 2 17 "run" ∷ [])) ∷ []) (function_on 3 "run" (clause 3 [] (mention 3 7 "start") ∷ []) ∷ []) ≡ Some (broken_at E16 3 7) }
    ensures device { with_body (mention 2 9 "start") ≡ None }
    ensures first { with_body (apply 2 9 (mention 2 9 "par") (mention 2 13 "start" ∷ mention 2 19 "par" ∷ [])) ≡ Some (broken_at E16 2 13) }
{}

/// A system has 64 devices at most: of 65 on the lines from 2 on, the last is in the way.
pub fn sixty_four_devices_are_enough()
    ensures enough { with_body (row 63 2) ≡ None }
    ensures too_many { with_body (row 64 2) ≡ Some (broken_at E16 66 1) }
{}
