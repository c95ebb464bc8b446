// Laws of the definitions: each is the contract of a function that does nothing.
ghost use Rattle.std.specs.Prelude.{◌≡◌, ℕ, List, Bool, true, false, Option};
ghost use Rattle.rw_core_flat.specs.Terms.{FlatTerm};
ghost use Rattle.rw_base.specs.declared.fail.Refusal.{Refusal};
ghost use Rattle.rw_core_flat.specs.Programs.{FlatFunction, FlatProgram};
ghost use Rattle.rw_guard_rules.specs.Signals.{Signals, Step, Guarded, CallsEnd};
ghost use Rattle.rw_guard_rules.specs.Rules.{Calls, Leads, Unguarded, IsMustSignal, signals_by, guarded_by, graph_of, Stuck};
ghost use Rattle.rw_guard_rules.specs.Verdict.{GuardsAs};

/// The set of the must-signal functions decides whether a term is must-signal, and whether a call is guarded, by its path.
pub fn must_signal_is_decided()
    ensures signals { (functions : List FlatFunction) (set : ℕ → Bool) → IsMustSignal functions set → (t : FlatTerm) → (Signals functions t → signals_by set t ≡ true) × (signals_by set t ≡ true → Signals functions t) }
    ensures guarded { (functions : List FlatFunction) (set : ℕ → Bool) → IsMustSignal functions set → (path : List Step) → (Guarded functions path → guarded_by set path ≡ true) × (guarded_by set path ≡ true → Guarded functions path) }
{}

/// Where unguarded calls go to functions of smaller ranks, they form no cycle.
pub fn ranks_leave_no_cycle()
    ensures { (functions : List FlatFunction) → CallsEnd functions → (i : ℕ) → Leads (Calls functions (Unguarded functions)) i i → ⊥ }
{}

/// There are such ranks exactly where no set of functions is stuck, of which each calls one of the set without a guard.
pub fn ranks_are_no_waiting()
    ensures ranks { (functions : List FlatFunction) (set : ℕ → Bool) → IsMustSignal functions set → ((s : ℕ → Bool) → Stuck (graph_of functions set) s → (i : ℕ) → s i ≡ false) → CallsEnd functions }
    ensures waiting { (functions : List FlatFunction) (set : ℕ → Bool) → IsMustSignal functions set → CallsEnd functions → (s : ℕ → Bool) → Stuck (graph_of functions set) s → (i : ℕ) → s i ≡ false }
{}

/// There is one verdict at most on a flat program.
pub fn one_verdict_on_guards()
    ensures { (program : FlatProgram) (found other : Option Refusal) → GuardsAs program found → GuardsAs program other → found ≡ other }
{}
