//! Laws that tie `meaning` to the program: runs, events, executions, refusals, predefined names and
//! ends of a test are the same by number (the program) as by name (`meaning`). So its condition
//! holds by number where it does by name. Read in specs/: Values, then each file names the next.
//! Names: after `Candidate` of `base_names/specs` and `Predefined` of `meaning/specs`. Ends: after
//! `Final` of `outcome_states/specs` and `Outcome` of `meaning/specs`. Satisfied: after `Words` of
//! `meaning_laws/specs`.
#![tactic(auto)]

ghost use Rattle.std.specs.Prelude.{ℕ, ◌≡◌, ◌<◌, ◌↔◌, List, length};
ghost use Rattle.text_values.specs.declared.instruction.Instruction.{Instruction};
ghost use Rattle.text_values.specs.declared.test.Test.{Test};
ghost use Rattle.text_values.specs.TestValue.{Content, content_of};
ghost use Rattle.thread_runs.specs.declared.state.State as numbered;
ghost use Rattle.meaning.specs.Names.{Name, locations};
ghost use Rattle.meaning.specs.Machine.{State, is_load};
ghost use Rattle.meaning.specs.Domain.{InDomain, InRound, instruction_count};
ghost use Rattle.meaning.specs.Executions.{Execution, AreRuns};
ghost use Rattle.ppc_lowering.specs.Domain.{InDomainAt, load_total, event_total, IsDomainAt};
ghost use Rattle.thread_runs.specs.declared.instruction.Program.{Program};
ghost use Rattle.ppc_lowering.specs.Lowering.{AreNamesOf, IsProgram, test_names};
ghost use Rattle.meaning_executions.specs.Values.{AreOneToOne, AreSameSets, IsSameState};
ghost use Rattle.meaning_executions.specs.Instructions.{DoesSame};
ghost use Rattle.meaning_executions.specs.Runs.{RunsAlike};
ghost use Rattle.meaning_executions.specs.Domain.{AreSameRuns};
ghost use Rattle.meaning_executions.specs.Dependencies.{RunsDependAlike};
ghost use Rattle.thread_runs.specs.Runs.{Run};
ghost use Rattle.candidates.specs.Executions.{events, Execution as NumberedExecution};
ghost use Rattle.meaning_executions.specs.ThreadRuns.{AreSameThreadRuns};
ghost use Rattle.meaning_executions.specs.Events.{AreSameEvents, HaveTheirNumbers, named_events};
ghost use Rattle.thread_runs.specs.declared.value.Value.{Value};
ghost use Rattle.candidates.specs.Listed.{AreTestExecutions, IsSpaceRefusal, ListsExecutions};
ghost use Rattle.candidate_spaces.specs.declared.candidate.Space.{Space};
ghost use Rattle.ppc_lowering.specs.declared.fault.EvalRefusal.{EvalRefusal};
ghost use Rattle.meaning.specs.Refusals.{event_count, IsAccepted, IsRefusal};
ghost use Rattle.meaning_executions.specs.Counts.{AreListed};
ghost use Rattle.meaning_executions.specs.Refusals.{AreRefusedAlike, AreRoundsAlike, refusal_by_name};
ghost use Rattle.meaning_executions.specs.Names.{PredefinedNamesAreMeant};
ghost use Rattle.meaning_executions.specs.Ends.{EndsAreMeant};
ghost use Rattle.meaning_executions.specs.Satisfied.{ConditionIsMeant};
ghost use Rattle.meaning_executions.specs.Executions.{AreSameExecutions};

/// The names that the program numbers are the locations of the test, in their order.
pub fn locations_are_numbered()
    ensures { (t : Test) (names : List Name)
        → AreNamesOf (test_names t) names ↔ (names ≡ locations (content_of t)) }
{}

/// A value by numbers is one value by names, and the other way round.
pub fn values_are_one_to_one()
    ensures { (t : Content) → AreOneToOne (locations t) }
{}

/// In the same state an instruction does the same by numbers as by names.
pub fn instructions_do_the_same()
    ensures { (t : Content) (labels : List Name) (i : Instruction) (s : numbered.State) (u : State)
        → IsSameState (locations t) s u → DoesSame (locations t) labels i s u }
{}

/// The threads of a program have the same runs as those of its test.
pub fn threads_run_alike()
    ensures { (t : Test) (p : Program) → IsProgram t p → (thread : ℕ)
        → thread < length (content_of t).threads → RunsAlike (content_of t) p thread }
{}

/// After each round of the domain a program has the same values as its test.
pub fn domains_are_alike()
    ensures rounds { (t : Test) (p : Program) → IsProgram t p → (rounds : ℕ)
        → AreSameSets (locations (content_of t)) (InDomainAt p rounds)
        (InRound (content_of t) rounds) }
    ensures domain { (t : Test) (p : Program) → IsProgram t p
        → AreSameSets (locations (content_of t)) (InDomainAt p (load_total p))
        (InDomain (content_of t)) }
{}

/// The runs of a thread over the domain are the same.
pub fn runs_are_the_same()
    ensures { (t : Test) (p : Program) → IsProgram t p → (thread : ℕ)
        → thread < length (content_of t).threads → AreSameRuns (content_of t) p thread }
{}

/// In runs that are the same, the instructions depend on each other alike.
pub fn runs_depend_alike()
    ensures { (x : Execution) (thread : ℕ) → RunsDependAlike x thread }
{}

/// Runs that are the same have the same events by number as by name, and dependencies number them
/// so.
pub fn events_are_the_same()
    ensures events { (t : Test) (p : Program) → IsProgram t p → (runs : List Run) (x : Execution)
        → AreSameThreadRuns (content_of t) 0 runs x.runs → AreRuns (content_of t) x.runs
        → AreSameEvents (content_of t) x (events p.initial.items runs)
        (named_events (content_of t) x.runs) }
    ensures numbers { (t : Test) (p : Program) → IsProgram t p → (runs : List Run) (x : Execution)
        → AreSameThreadRuns (content_of t) 0 runs x.runs → AreRuns (content_of t) x.runs
        → HaveTheirNumbers p.initial.items runs (named_events (content_of t) x.runs) }
{}

/// Each execution of a program over its domain is one of its test, and the other way round, one to
/// one.
pub fn executions_are_the_same()
    ensures { (t : Test) (p : Program) → IsProgram t p → (V : List Value)
        → IsDomainAt p (load_total p) V → AreSameExecutions (content_of t) p V }
{}

/// A program has as many events and loads in its text as its test.
pub fn texts_are_as_long()
    ensures events { (t : Test) (p : Program) → IsProgram t p
        → event_total p ≡ event_count (content_of t) }
    ensures loads { (t : Test) (p : Program) → IsProgram t p
        → load_total p ≡ instruction_count is_load (content_of t) }
{}

/// After each round of the domain a program and its test pass the same bounds, or neither.
pub fn rounds_are_alike()
    ensures { (t : Test) (p : Program) → IsProgram t p → (rounds : ℕ)
        → AreRoundsAlike (content_of t) p rounds }
{}

/// A test is refused for too many events, values or runs where its program is, and for none of
/// them where its program keeps the bounds.
pub fn domains_are_refused_alike()
    ensures { (t : Test) (p : Program) → IsProgram t p → AreRefusedAlike (content_of t) p }
{}

/// A test is refused for what its space is refused for, and accepted where it has a space.
pub fn refusals_are_the_same()
    ensures refused { (t : Test) (r : EvalRefusal) → IsSpaceRefusal t r
        → IsRefusal (content_of t) (refusal_by_name r) }
    ensures accepted { (t : Test) (s : Space) → ListsExecutions t s → IsAccepted (content_of t) }
{}

/// The list of the executions of a test has each of its executions once, in the order of the list.
pub fn executions_are_listed()
    ensures { (t : Test) (initial : List Value) (xs : List NumberedExecution)
        → AreTestExecutions t initial xs → AreListed (content_of t) xs }
{}

/// The sets and relations of the predefined names of a candidate are those of its execution.
pub fn predefined_names_are_meant()
    ensures { PredefinedNamesAreMeant }
{}

/// A register or location of a test holds at the end what it holds by number.
pub fn ends_are_meant()
    ensures { EndsAreMeant }
{}

/// A candidate satisfies the condition of a test by number where its execution does by name.
pub fn condition_is_meant()
    ensures { ConditionIsMeant }
{}
