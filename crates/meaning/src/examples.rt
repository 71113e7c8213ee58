//! Small closed examples of the definitions, which a check computes.

ghost use Rattle.std.specs.Prelude.{◌≡◌, List, [], ◌∷◌, ℕ, ◌↔◌, codes, None, Contains};
ghost use Rattle.text_values.specs.ModelValue.{Atom};
ghost use Rattle.meaning.specs.Sets.{IsAcyclic};
ghost use Rattle.meaning.specs.Names.{locations};
ghost use Rattle.meaning.specs.Machine.{Number};
ghost use Rattle.meaning.specs.Runs.{run_of};
ghost use Rattle.meaning.specs.Executions.{Does, Initial, Event, IsStoreOf, IsExecution, NeedOrReads};
ghost use Rattle.meaning.specs.Faults.{faults, Unbound, Kind, NotMonotone};
ghost use Rattle.meaning.specs.Outcome.{EndsIn, Satisfies};
ghost use Rattle.meaning.specs.Evaluates.{Evaluates, Evaluated};
ghost use Rattle.meaning.specs.Examples.{acyclic_of, twice_of, twice, complement_of_itself, IsOneOfTwo, names_of_two, TwiceR, LeastOfP, store_lines, state_at_x, stored_in, store_test, store_execution, StoresAtX, store_items, store_evaluation};

/// The faults of some small models.
pub fn small_models_have_their_faults()
    ensures unbound { faults (acyclic_of (Atom (codes "zz")) ∷ []) ≡ Unbound ∷ [] }
    ensures kind { faults (acyclic_of (Atom (codes "R")) ∷ []) ≡ Kind ∷ [] }
    ensures falls { faults (complement_of_itself ∷ []) ≡ NotMonotone ∷ [] }
    ensures applied { faults (twice ∷ acyclic_of (twice_of (Atom (codes "po"))) ∷ []) ≡ [] }
    ensures clash { faults (twice ∷ acyclic_of (twice_of (Atom (codes "R"))) ∷ []) ≡ Kind ∷ [] }
{}

/// A thread that stores 1.
pub fn one_is_stored()
    ensures { stored_in (run_of store_lines None state_at_x []) ≡ Number 1 ∷ [] }
{}

/// On two events: `twice(r)` is empty, and `let rec p = r | (p;p)` has the pair of `r`.
pub fn two_events_relate()
    ensures twice { (a b : ℕ) → TwiceR a b → ⊥ }
    ensures least { LeastOfP 0 1 }
{}

/// The test that stores 1: its location, what its events do, how it ends.
pub fn a_small_test_is_read()
    ensures locations { locations store_test ≡ codes "x" ∷ [] }
    ensures stores { StoresAtX (Does 0 1) 1 }
    ensures starts { StoresAtX (Initial (codes "x")) 0 }
    ensures ends { EndsIn store_test store_execution (Number 1 ∷ []) }
    ensures holds { Satisfies store_test store_execution store_test.condition }
{}

/// The test that stores 1 has an execution: its initial store, then its store.
pub fn a_small_test_has_an_execution()
    ensures stores { (e : Event) → Contains (Initial (codes "x") ∷ Does 0 1 ∷ []) e
        ↔ IsStoreOf store_test store_execution (codes "x") e }
    ensures acyclic { IsAcyclic (NeedOrReads store_execution) }
    ensures execution { IsExecution store_test store_execution }
{}

/// What that test says under the model `empty rf`, from its instructions to its outcome.
pub fn a_small_test_is_evaluated()
    ensures { Evaluates store_test store_items (Evaluated store_evaluation) }
{}
