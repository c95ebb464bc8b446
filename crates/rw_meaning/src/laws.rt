// Laws of the definitions: each is the contract of a function that does nothing.
ghost use Rattle.std.specs.Prelude.{◌≡◌, ◌+◌, ℕ, suc, List, Some, length};
ghost use Rattle.rw_scope_rules.specs.declared.binding.Bound.{Bound};
ghost use Rattle.rw_tree.specs.Declarations.{Declaration};
ghost use Rattle.rw_core.specs.Values.{Val};
ghost use Rattle.rw_core.specs.Traces.{Trace};
ghost use Rattle.rw_meaning.specs.Results.{Outcome, Thunk, Thunks};
ghost use Rattle.rw_meaning.specs.Evaluation.{Task, result_within};
ghost use Rattle.rw_meaning.specs.Trace.{act_within, trace_within};
ghost use Rattle.rw_meaning.specs.Outputs.{outputs_within, Denotes};

/// A greater budget never changes what evaluation, a state action or a trace gives.
pub fn results_last()
    ensures evaluation { (program : List (Declaration Bound)) (further budget : ℕ) (task : Task) (r : Outcome) → result_within program budget task ≡ Some r → result_within program (further + budget) task ≡ Some r }
    ensures action { (program : List (Declaration Bound)) (further budget : ℕ) (m : Thunk) (states : Thunks) (p : Thunk × Thunks) → act_within program budget m states ≡ Some p → act_within program (further + budget) m states ≡ Some p }
    ensures trace { (program : List (Declaration Bound)) (further budget : ℕ) (m : Thunk) (states : Thunks) (inputs : List Val) (t : Trace Thunk Thunks) → trace_within program budget m states inputs ≡ Some t → trace_within program (further + budget) m states inputs ≡ Some t }
{}

/// A greater budget never changes the outputs of a program; so outputs within any budget are those that it denotes.
pub fn outputs_last()
    ensures lasting { (program : List (Declaration Bound)) (further budget : ℕ) (inputs outputs : List Val) → outputs_within program budget inputs ≡ Some outputs → outputs_within program (further + budget) inputs ≡ Some outputs }
    ensures denoted { (program : List (Declaration Bound)) (budget : ℕ) (inputs outputs : List Val) → outputs_within program budget inputs ≡ Some outputs → Denotes program inputs outputs }
{}

/// A program denotes one list of outputs at most on each list of inputs.
pub fn one_list_is_denoted()
    ensures { (program : List (Declaration Bound)) (inputs first second : List Val) → Denotes program inputs first → Denotes program inputs second → first ≡ second }
{}

/// A program shows one output after reset and one after each input.
pub fn one_more_output_than_inputs()
    ensures { (program : List (Declaration Bound)) (inputs outputs : List Val) → Denotes program inputs outputs → length outputs ≡ suc (length inputs) }
{}
