// Laws of the definitions: each is the contract of a function that does nothing. L and M are the leaves of two systems, F and G
// their functions; V, S and O stand for values, states and outputs.
ghost use Rattle.std.specs.Prelude.{◌≡◌, ℕ, suc, List, Option, Some, length};
ghost use Rattle.rw_core.specs.Values.{Val};
ghost use Rattle.rw_core.specs.Options.{Grows};
ghost use Rattle.rw_core.specs.Eventually.{GrowsInTime};
ghost use Rattle.rw_core.specs.Traces.{End, Trace, and_on, without_state, shown, Counts};
ghost use Rattle.rw_core.specs.Systems.{System, Reading, system_outputs, Agrees, Follows, FollowsInTime, LeavesShowOneMore};

/// Two readings that agree on each leaf and function of a system agree on the system. So does what the second gives where the
/// first gives it, at once or from some budget on.
pub fn systems_follow<L, F, M, G>()
    ensures agrees { (first : Reading L F) (second : Reading M G) (s : System L F) (t : System M G) → Agrees first second s t → (inputs : List Val) → system_outputs first s inputs ≡ system_outputs second t inputs }
    ensures follows { (first : Reading L F) (second : Reading M G) (s : System L F) (t : System M G) → Follows first second s t → (inputs : List Val) → Grows (system_outputs first s inputs) (system_outputs second t inputs) }
    ensures in_time { (first : Reading L F) (within : ℕ → Reading M G) (s : System L F) (t : System M G) → FollowsInTime first within s t → (inputs : List Val) → GrowsInTime (system_outputs first s inputs) (λ n. system_outputs (within n) t inputs) }
{}

/// Where each leaf shows one output more than it was given inputs, so does the system.
pub fn one_more_output<L, F>()
    ensures { (reading : Reading L F) (s : System L F) → LeavesShowOneMore reading s → (inputs outputs : List Val) → system_outputs reading s inputs ≡ Some outputs → length outputs ≡ suc (length inputs) }
{}

/// Going on with a trace, and dropping a state, keep the count of outputs; and what a device shows has one output more than it was
/// given inputs, where each output of its trace is read as one.
pub fn traces_count<V, S, O>()
    ensures going_on { (n : ℕ) (outputs : List V) (end : End V S) (next : V → S → List Val → Option (Trace V S)) (t : Trace V S) → Counts n outputs end → ((v : V) (states : S) (left : List Val) (u : Trace V S) → next v states left ≡ Some u → Counts (length left) u.outputs u.end) → and_on outputs end next ≡ Some t → Counts n t.outputs t.end }
    ensures dropping { (n : ℕ) (rest : S → Option S) (outputs : List V) (end : End V S) (t : Trace V S) → Counts n outputs end → without_state rest outputs end ≡ Some t → Counts n t.outputs t.end }
    ensures showing { (n : ℕ) (outputs : List V) (end : End V S) (read made : List O) → Counts n outputs end → length read ≡ length outputs → shown n end read ≡ Some made → length made ≡ suc n }
{}
