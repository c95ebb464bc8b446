// Programs that break no rule, and what their names are bound to. Each is the contract of a function that does nothing.
ghost use Rattle.std.specs.Prelude.{◌≡◌, ◌∷◌, [], None};
ghost use Rattle.rw_tree.specs.Trees.{let_in, lambda, binding_parts};
ghost use Rattle.rw_scope_rules.specs.Verdict.{first_broken};
ghost use Rattle.rw_scope_rules.specs.Bindings.{bound_program};
ghost use Rattle.source_worked.specs.ScopePrograms.{at, binder, matched, mention, construct, apply, clause, clause_where, local_name, local_parts, showing, by_clauses, numbered, numbered_bound};

/// A local name may hide an operation, a parameter, or a name of a group around it; bindings of a group may stand before those that they depend on.
pub fn shadowing_is_allowed()
    ensures operation { first_broken (by_clauses (clause 3 1 (binder 3 3 "get" ∷ []) (mention 3 9 "get") ∷ [])) ≡ None }
    ensures parameter { first_broken (by_clauses (clause_where 3 1 (binder 3 3 "x" ∷ []) (mention 3 7 "x") (local_name 4 3 "x" (construct 4 7 "Zero") ∷ []) ∷ [])) ≡ None }
    ensures group { first_broken (showing (let_in (at 3 5) (binding_parts (local_name 3 9 "x" (lambda (at 3 13) (binder 3 14 "x" ∷ []) (mention 3 19 "x")) ∷ [])) (mention 3 24 "x"))) ≡ None }
    ensures later { first_broken (by_clauses (clause_where 3 1 [] (mention 3 5 "x") (local_name 4 3 "x" (mention 4 7 "y") ∷ local_name 5 3 "y" (construct 5 7 "Zero") ∷ []) ∷ [])) ≡ None }
{}

/// In `f x = y x where { y z = One z ; x = get }` the parameter has number 0, `y` 1, the `x` of the group 2, and `z` 3; the last `x` is that of the group.
pub fn local_names_are_numbered()
    ensures { bound_program numbered ≡ numbered_bound }
{}
