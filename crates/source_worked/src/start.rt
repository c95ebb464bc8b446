// E15, broken and kept. Each is the contract of a function that does nothing.
ghost use Rattle.std.specs.Prelude.{◌≡◌, ◌∷◌, [], codes, Some, None};
ghost use Rattle.rw_base.specs.declared.rule.Rule.TheVariants.{E15};
ghost use Rattle.rw_tree.specs.Types.{variable_type, function_type};
ghost use Rattle.rw_tree.specs.Trees.{alternative, guarded_side, guarded_body, body_parts, no_bindings};
ghost use Rattle.source_worked.specs.StartPrograms.{at, broken_at, named, applied, tuple_of, device, mention, binder, clause, clause_where, local_name, function_on, broken, of_type, by_clauses};

/// Where `start` is missing the place is 1:1, and else that of its first clause. A local name isn't meant.
pub fn start_is_there()
    ensures missing { broken (function_on 3 "run" (clause 3 [] (mention 3 7 "run") ∷ []) ∷ []) ≡ Some (broken_at E15 1 1) }
    ensures local { broken (function_on 3 "run" (clause_where 3 [] (mention 3 7 "start") (local_name 4 3 "start" (mention 4 11 "run") ∷ []) ∷ []) ∷ []) ≡ Some (broken_at E15 1 1) }
    ensures alone { broken (function_on 3 "start" (clause 3 [] (mention 3 9 "run") ∷ []) ∷ []) ≡ Some (broken_at E15 3 1) }
{}

/// It has no pattern, no guard, and no second clause; what is bound after its `where` does no harm.
pub fn start_is_one_equation()
    ensures pattern { by_clauses (clause 2 (binder 2 7 "x" ∷ []) (mention 2 11 "run") ∷ []) ≡ Some (broken_at E15 2 1) }
    ensures guard { by_clauses (alternative (at 2 1) [] (guarded_side (body_parts (guarded_body (mention 2 9 "otherwise") (mention 2 21 "run") ∷ []))) no_bindings ∷ []) ≡ Some (broken_at E15 2 1) }
    ensures clauses { by_clauses (clause 2 [] (mention 2 9 "run") ∷ clause 3 [] (mention 3 9 "run") ∷ []) ≡ Some (broken_at E15 2 1) }
    ensures kept { by_clauses (clause_where 2 [] (mention 2 9 "run") (local_name 3 3 "x" (mention 3 7 "run") ∷ []) ∷ []) ≡ None }
{}

/// It is of the type `ReT i o I ()`: of no other type, over no other monad, and with no other result.
pub fn start_is_a_device()
    ensures other { of_type (named "Bool") ≡ Some (broken_at E15 2 1) }
    ensures monad { of_type (applied (named "ReT") (named "Bool" ∷ named "Bool" ∷ applied (named "StateT") (named "Bool" ∷ named "I" ∷ []) ∷ tuple_of [] ∷ [])) ≡ Some (broken_at E15 2 1) }
    ensures open_monad { of_type (applied (named "ReT") (named "Bool" ∷ named "Bool" ∷ variable_type (codes "m") ∷ tuple_of [] ∷ [])) ≡ Some (broken_at E15 2 1) }
    ensures result { of_type (applied (named "ReT") (named "Bool" ∷ named "Bool" ∷ named "I" ∷ named "Bool" ∷ [])) ≡ Some (broken_at E15 2 1) }
    ensures taken { of_type (function_type (named "Bool") (device (named "Bool") (named "Bool"))) ≡ Some (broken_at E15 2 1) }
    ensures kept { of_type (device (named "Bool") (named "Bool")) ≡ None }
    ensures parentheses { of_type (applied (applied (named "ReT") (named "Bool" ∷ named "Bool" ∷ [])) (named "I" ∷ tuple_of [] ∷ [])) ≡ None }
{}

/// Its inputs and outputs are closed data: no variable, no function and no computation, in an argument neither.
pub fn start_has_a_type()
    ensures input { of_type (device (variable_type (codes "a")) (named "Bool")) ≡ Some (broken_at E15 2 1) }
    ensures output { of_type (device (named "Bool") (tuple_of (named "Bool" ∷ variable_type (codes "a") ∷ []))) ≡ Some (broken_at E15 2 1) }
    ensures function { of_type (device (function_type (named "Bool") (named "Bool")) (named "Bool")) ≡ Some (broken_at E15 2 1) }
    ensures argument { of_type (device (named "Bool") (applied (named "Maybe") (function_type (named "Bool") (named "Bool") ∷ []))) ≡ Some (broken_at E15 2 1) }
    ensures computation { of_type (device (applied (named "I") (named "Bool" ∷ [])) (named "Bool")) ≡ Some (broken_at E15 2 1) }
    ensures kept { of_type (device (tuple_of []) (tuple_of (applied (named "Maybe") (named "Bool" ∷ []) ∷ named "Bool" ∷ []))) ≡ None }
{}
