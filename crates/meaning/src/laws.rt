//! Laws of the definitions, for every test and model.

ghost use Rattle.std.specs.Prelude.{ℕ, ◌↔◌};
ghost use Rattle.text_values.specs.TestValue.{Content};
ghost use Rattle.meaning.specs.Machine.{Value};
ghost use Rattle.meaning.specs.Domain.{InRound, IsInitialValue};
ghost use Rattle.meaning.specs.Laws.{ACheckKeepsNoOther, MoreItemsKeepNoOther, MoreChecksKeepNoOther, AsidesKeepAll, NoItemsKeepAll, AFaultStays, WordsAreRight, RunsAloneDecide, LetRecSolves, RenamingKeepsAll, EntriesMaySwap, MeaningsAreOne};

/// Before the first round the values of the domain are the initial ones.
pub fn rounds_begin()
    ensures { (t : Content) (v : Value) → InRound t 0 v ↔ IsInitialValue t v }
{}

/// Checks keep no new execution, and nothing but checks changes what is kept.
pub fn checks_refuse()
    ensures check { ACheckKeepsNoOther }
    ensures more { MoreItemsKeepNoOther }
    ensures checks { MoreChecksKeepNoOther }
    ensures asides { AsidesKeepAll }
    ensures none { NoItemsKeepAll }
{}

/// A model with a fault has it as its first, whatever follows.
pub fn a_fault_stays()
    ensures { AFaultStays }
{}

/// The words of an evaluation say of the kept executions what they say in the field.
pub fn words_are_right()
    ensures { WordsAreRight }
{}

/// Where a model speaks of no reads-from and no coherence, the runs alone decide what it keeps.
pub fn runs_alone_decide()
    ensures { RunsAloneDecide }
{}

/// A recursive group stands for the least solution of its equations.
pub fn let_rec_solves()
    ensures { LetRecSolves }
{}

/// What a binding is called makes no difference.
pub fn renaming_keeps_all()
    ensures { RenamingKeepsAll }
{}

/// The order of the entries of an init block makes no difference to what holds at the start.
pub fn entries_may_swap()
    ensures { EntriesMaySwap }
{}

/// A test has no two outcomes under a model: no two faults, refusals or evaluations.
pub fn meanings_are_one()
    ensures { MeaningsAreOne }
{}
