// Laws of the steps of evaluation, of actions and of devices, whatever the budget: each is the contract of a function that does
// nothing. L and F are the leaves and the functions of some other system.
ghost use Rattle.std.specs.Prelude.{◌≡◌, ℕ, List, Some, length};
ghost use Rattle.rw_scope_rules.specs.declared.binding.Bound.{Bound};
ghost use Rattle.rw_tree.specs.Declarations.{Declaration};
ghost use Rattle.rw_core.specs.Values.{Val};
ghost use Rattle.rw_core.specs.Eventually.{Reaches};
ghost use Rattle.rw_core.specs.Traces.{Trace, shown};
ghost use Rattle.rw_core.specs.Systems.{System, Reading, system_outputs};
ghost use Rattle.rw_meaning.specs.Results.{Outcome, Thunk, Thunks, nothing, joined, known, held};
ghost use Rattle.rw_meaning.specs.Evaluation.{Task, force, apply, result_within, inside_names};
ghost use Rattle.rw_meaning.specs.Systems.{binding_of, Body, system_of, start_of};
ghost use Rattle.rw_meaning.specs.Outputs.{data_within, Denotes};
ghost use Rattle.rw_meaning.specs.Steps.{Gives, StepGives, Stands, EachStands, Acts, ActsAs, Traces, TracesAs, Shows, IsRealised};

/// A task gives what one step of it gives over what the tasks on its way give, and nothing else; what it gives within some
/// budget, it gives.
pub fn evaluation_steps()
    ensures gives { (program : List (Declaration Bound)) (task : Task) (r : Outcome) → StepGives program task r → Gives program task r }
    ensures steps { (program : List (Declaration Bound)) (task : Task) (r : Outcome) → Gives program task r → StepGives program task r }
    ensures once { (program : List (Declaration Bound)) (task : Task) (r s : Outcome) → Gives program task r → Gives program task s → r ≡ s }
    ensures within { (program : List (Declaration Bound)) (budget : ℕ) (task : Task) (r : Outcome) → result_within program budget task ≡ Some r → Gives program task r }
{}

/// What is applied to nothing stays what it is; and what is given to all arguments is given to the first ones, and then to the
/// others.
pub fn application_in_parts()
    ensures to_nothing { (program : List (Declaration Bound)) (f : Outcome) → Gives program (apply f nothing) f }
    ensures in_parts { (program : List (Declaration Bound)) (f : Outcome) (first others : Thunks) (r : Outcome) → Gives program (apply f (joined first others)) r → (middle : Outcome) × Gives program (apply f first) middle × Gives program (apply middle others) r }
{}

/// What is kept does what its result does, as a state action and as a device, and nothing else.
pub fn actions_step()
    ensures acts { (program : List (Declaration Bound)) (m : Thunk) (before : Thunks) (r : Outcome) (v : Thunk) (after : Thunks) → Gives program (force m) r → ActsAs program r before v after → Acts program m before v after }
    ensures traces { (program : List (Declaration Bound)) (m : Thunk) (states : Thunks) (inputs : List Val) (r : Outcome) (t : Trace Thunk Thunks) → Gives program (force m) r → TracesAs program r states inputs t → Traces program m states inputs t }
    ensures acts_by { (program : List (Declaration Bound)) (m : Thunk) (before : Thunks) (v : Thunk) (after : Thunks) → Acts program m before v after → (r : Outcome) × Gives program (force m) r × ActsAs program r before v after }
    ensures traces_by { (program : List (Declaration Bound)) (m : Thunk) (states : Thunks) (inputs : List Val) (t : Trace Thunk Thunks) → Traces program m states inputs t → (r : Outcome) × Gives program (force m) r × TracesAs program r states inputs t }
{}

/// What stands for a value is read as it, what is read as a value stands for it, and a value stands for itself.
pub fn values_stand()
    ensures read { (program : List (Declaration Bound)) (v : Val) (t : Thunk) → Stands program t v → Reaches (λ n. data_within program n t) v }
    ensures stands { (program : List (Declaration Bound)) (budget : ℕ) (v : Val) (t : Thunk) → data_within program budget t ≡ Some v → Stands program t v }
    ensures held { (program : List (Declaration Bound)) (v : Val) → Stands program (known (held v)) v }
{}

/// A device shows the values that the outputs of its trace stand for, the last one repeated where it is finished.
pub fn devices_show()
    ensures { (program : List (Declaration Bound)) (device : Thunk) (inputs outputs made : List Val) (t : Trace Thunk Thunks) → Traces program device nothing inputs t → EachStands program t.outputs outputs → shown (length inputs) t.end outputs ≡ Some made → Shows program device inputs made }
{}

/// A program denotes what some other system gives that its own realises, leaf by leaf and function by function.
pub fn realised_systems_are_denoted<L, F>()
    ensures { (program : List (Declaration Bound)) (first : Reading L F) (s : System L F) (body : Body Bound) → start_of program ≡ Some body → IsRealised program first (inside_names nothing body.wheres) s (system_of binding_of body.expression) → (inputs outputs : List Val) → system_outputs first s inputs ≡ Some outputs → Denotes program inputs outputs }
{}
