// Programs that break a rule, and where the first one is broken. Each is the contract of a function that does nothing.
ghost use Rattle.std.specs.Prelude.{◌≡◌, ◌∷◌, [], codes, Some};
ghost use Rattle.rw_base.specs.declared.rule.Rule.TheVariants.{E06, E07, E08, E09, E10, E11, E12};
ghost use Rattle.rw_tree.specs.declared.decl.Side.TheVariants.{Left};
ghost use Rattle.rw_tree.specs.Types.{function_type};
ghost use Rattle.rw_tree.specs.Trees.{lambda, let_in, binding_parts, do_block, statement_parts, bind_statement, run_statement, local_signature};
ghost use Rattle.rw_tree.specs.Declarations.{import_declaration, fixity_declaration};
ghost use Rattle.rw_scope_rules.specs.Verdict.{first_broken};
ghost use Rattle.source_worked.specs.ScopePrograms.{at, broken_at, program_of, named_type, type_variable, applied, binder, matched, mention, construct, apply, clause, clause_where, local_name, local_parts, made_of, data_on, signature_on, function_on, after_bit, showing, by_clauses};

/// E06: an unknown module is imported, at the import.
pub fn imports_are_judged()
    ensures unknown { first_broken (program_of (import_declaration (at 1 1) (codes "Data.Bits") ∷ [])) ≡ Some (broken_at E06 1 1) }
{}

/// E07: an operation is declared, where it has no signature either; a constructor is declared again; clauses of one name are apart;
/// a second signature; a second fixity; one variable twice in the head of a data type, in a clause, in a lambda and in a statement;
/// one name twice in a let group, by a function and by a pattern.
pub fn repetitions_are_found()
    ensures operation { first_broken (after_bit (function_on 2 "get" (clause 2 1 [] (construct 2 7 "Zero") ∷ []) ∷ [])) ≡ Some (broken_at E07 2 1) }
    ensures constructor { first_broken (after_bit (data_on 2 "Other" [] (made_of "One" [] ∷ []) ∷ [])) ≡ Some (broken_at E07 2 1) }
    ensures apart { first_broken (after_bit (function_on 2 "f" (clause 2 1 [] (construct 2 5 "Zero") ∷ []) ∷ function_on 3 "g" (clause 3 1 [] (construct 3 5 "Zero") ∷ []) ∷ function_on 4 "f" (clause 4 1 [] (construct 4 5 "Zero") ∷ []) ∷ [])) ≡ Some (broken_at E07 4 1) }
    ensures signature { first_broken (after_bit (signature_on 2 "f" (named_type "Bit") ∷ signature_on 3 "f" (named_type "Bit") ∷ [])) ≡ Some (broken_at E07 3 1) }
    ensures fixity { first_broken (after_bit (fixity_declaration (at 2 1) Left 6 (codes "+" ∷ codes "+" ∷ []) ∷ [])) ≡ Some (broken_at E07 2 1) }
    ensures head { first_broken (after_bit (data_on 2 "Both" (codes "a" ∷ codes "a" ∷ []) (made_of "Both" [] ∷ []) ∷ [])) ≡ Some (broken_at E07 2 1) }
    ensures in_clause { first_broken (by_clauses (clause 3 1 (binder 3 3 "x" ∷ binder 3 5 "x" ∷ []) (mention 3 9 "x") ∷ [])) ≡ Some (broken_at E07 3 5) }
    ensures in_lambda { first_broken (showing (lambda (at 3 5) (binder 3 6 "x" ∷ binder 3 8 "x" ∷ []) (mention 3 13 "x"))) ≡ Some (broken_at E07 3 8) }
    ensures in_statement { first_broken (showing (do_block (at 3 5) (statement_parts (bind_statement (at 3 8) (matched 3 8 "Zero" (binder 3 13 "x" ∷ binder 3 15 "x" ∷ [])) (mention 3 20 "get") ∷ run_statement (at 3 25) (mention 3 25 "get") ∷ [])))) ≡ Some (broken_at E07 3 15) }
    ensures in_group { first_broken (showing (let_in (at 3 5) (binding_parts (local_name 3 9 "x" (construct 3 13 "Zero") ∷ local_parts 3 19 (matched 3 19 "One" (binder 3 23 "x" ∷ [])) (construct 3 27 "Zero") ∷ [])) (mention 3 36 "x"))) ≡ Some (broken_at E07 3 23) }
{}

/// E08: a variable; a constructor of an expression and of a pattern; the earlier of two, though it is the operand of an operator and
/// stands after it in the tree; a name after its let; a type of a signature and of a local one; a variable of a field; an operator of a fixity declaration.
pub fn bindings_are_looked_up()
    ensures variable { first_broken (showing (mention 3 5 "x")) ≡ Some (broken_at E08 3 5) }
    ensures constructor { first_broken (showing (construct 3 5 "Two")) ≡ Some (broken_at E08 3 5) }
    ensures in_pattern { first_broken (by_clauses (clause 3 1 (matched 3 3 "Two" [] ∷ []) (construct 3 9 "Zero") ∷ [])) ≡ Some (broken_at E08 3 3) }
    ensures earlier { first_broken (showing (apply 3 5 (mention 3 7 "+") (mention 3 5 "x" ∷ construct 3 9 "Zero" ∷ []))) ≡ Some (broken_at E08 3 5) }
    ensures after_let { first_broken (showing (apply 3 5 (let_in (at 3 6) (binding_parts (local_name 3 10 "x" (construct 3 14 "Zero") ∷ [])) (mention 3 22 "x")) (mention 3 25 "x" ∷ []))) ≡ Some (broken_at E08 3 25) }
    ensures in_signature { first_broken (after_bit (signature_on 2 "f" (named_type "Bits") ∷ [])) ≡ Some (broken_at E08 2 1) }
    ensures in_local_signature { first_broken (showing (let_in (at 3 5) (binding_parts (local_signature (at 3 9) (codes "x") (named_type "Bits") ∷ [])) (construct 3 22 "Zero"))) ≡ Some (broken_at E08 3 9) }
    ensures of_field { first_broken (after_bit (data_on 2 "Box" [] (made_of "Box" (type_variable "a" ∷ []) ∷ []) ∷ [])) ≡ Some (broken_at E08 2 1) }
    ensures of_fixity { first_broken (after_bit (fixity_declaration (at 2 1) Left 6 (codes "+" ∷ []) ∷ [])) ≡ Some (broken_at E08 2 1) }
{}

/// E09: a signature without a binding, of an operation too; a binding without a signature; a clause with another number of patterns, at top level and in a let group.
pub fn pairs_are_judged()
    ensures no_binding { first_broken (after_bit (signature_on 2 "f" (named_type "Bit") ∷ [])) ≡ Some (broken_at E09 2 1) }
    ensures of_operation { first_broken (after_bit (signature_on 2 "get" (named_type "Bit") ∷ [])) ≡ Some (broken_at E09 2 1) }
    ensures no_signature { first_broken (after_bit (function_on 2 "f" (clause 2 1 [] (construct 2 5 "Zero") ∷ []) ∷ [])) ≡ Some (broken_at E09 2 1) }
    ensures uneven { first_broken (by_clauses (clause 3 1 (binder 3 3 "x" ∷ []) (mention 3 7 "x") ∷ clause 4 1 [] (construct 4 5 "Zero") ∷ [])) ≡ Some (broken_at E09 4 1) }
{}

/// E10: a data type with an argument too many; a variable that is a type and a monad; a monad that is no state monad where one must stand; an arrow in a field; a
/// monad in a field; a local signature with a variable.
pub fn kinds_are_judged()
    ensures arguments { first_broken (after_bit (signature_on 2 "f" (applied (named_type "Bit") (named_type "Bit" ∷ [])) ∷ function_on 3 "f" (clause 3 1 [] (construct 3 5 "Zero") ∷ []) ∷ [])) ≡ Some (broken_at E10 2 1) }
    ensures both { first_broken (after_bit (signature_on 2 "f" (function_type (type_variable "m") (applied (type_variable "m") (named_type "Bit" ∷ []))) ∷ function_on 3 "f" (clause 3 1 [] (construct 3 5 "Zero") ∷ []) ∷ [])) ≡ Some (broken_at E10 2 1) }
    ensures no_state { first_broken (after_bit (signature_on 2 "f" (applied (named_type "StateT") (named_type "Bit" ∷ applied (named_type "ReT") (named_type "Bit" ∷ named_type "Bit" ∷ named_type "I" ∷ []) ∷ named_type "Bit" ∷ [])) ∷ function_on 3 "f" (clause 3 1 [] (mention 3 5 "get") ∷ []) ∷ [])) ≡ Some (broken_at E10 2 1) }
    ensures arrow { first_broken (after_bit (data_on 2 "Box" [] (made_of "Box" (function_type (named_type "Bit") (named_type "Bit") ∷ []) ∷ []) ∷ [])) ≡ Some (broken_at E10 2 1) }
    ensures monad { first_broken (after_bit (data_on 2 "Box" [] (made_of "Box" (applied (named_type "I") (named_type "Bit" ∷ []) ∷ []) ∷ []) ∷ [])) ≡ Some (broken_at E10 2 1) }
    ensures variable { first_broken (showing (let_in (at 3 5) (binding_parts (local_signature (at 3 9) (codes "x") (type_variable "a") ∷ [])) (construct 3 20 "Zero"))) ≡ Some (broken_at E10 3 9) }
{}

/// E11: a data type without a constructor; one that mentions itself, through another and as an argument that is not used. The first that lies on the way
/// is the one, and not one that leads there.
pub fn data_types_are_judged()
    ensures empty { first_broken (after_bit (data_on 2 "None" [] [] ∷ [])) ≡ Some (broken_at E11 2 1) }
    ensures recursive { first_broken (after_bit (data_on 2 "Leads" [] (made_of "Leads" (named_type "Odd" ∷ []) ∷ []) ∷ data_on 3 "Odd" [] (made_of "Odd" (applied (named_type "Some") (named_type "Even" ∷ []) ∷ []) ∷ []) ∷ data_on 4 "Even" [] (made_of "Even" (named_type "Odd" ∷ []) ∷ []) ∷ data_on 5 "Some" (codes "a" ∷ []) (made_of "Some" [] ∷ []) ∷ [])) ≡ Some (broken_at E11 3 1) }
{}

/// E12: two bindings that depend on each other, and one before them that waits for them; a local function that calls itself; a pattern whose parts depend on each other.
pub fn cycles_are_found()
    ensures two { first_broken (by_clauses (clause_where 3 1 [] (mention 3 5 "x") (local_name 4 3 "x" (mention 4 7 "y") ∷ local_name 5 3 "y" (mention 5 7 "z") ∷ local_name 6 3 "z" (mention 6 7 "y") ∷ []) ∷ [])) ≡ Some (broken_at E12 4 3) }
    ensures itself { first_broken (by_clauses (clause_where 3 1 [] (mention 3 5 "x") (local_name 4 3 "y" (construct 4 7 "Zero") ∷ local_name 5 3 "x" (apply 5 7 (mention 5 7 "x") (mention 5 9 "y" ∷ [])) ∷ []) ∷ [])) ≡ Some (broken_at E12 5 3) }
    ensures parts { first_broken (by_clauses (clause_where 3 1 [] (mention 3 5 "x") (local_parts 4 3 (matched 4 3 "One" (binder 4 7 "x" ∷ binder 4 9 "y" ∷ [])) (mention 4 13 "y") ∷ []) ∷ [])) ≡ Some (broken_at E12 4 3) }
{}
