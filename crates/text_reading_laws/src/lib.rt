//! Laws of what texts mean: each text of a test, of a part of one, of a model or of an item means
//! one thing or has one fault, and not both. Read specs/Laws first, after `Texts` of
//! `litmus_grammar/specs` and `ReadsClauses` of `cat_syntax/specs`.
#![tactic(auto)]

ghost use Rattle.std.specs.Prelude.{◌<◌, ℕ, List, length};
ghost use Rattle.cat_grammar.specs.declared.form.Form.{Form};
ghost use Rattle.litmus_grammar.specs.Texts.{ReadsTest, IsTestFault, ReadsInit, IsInitFault, ReadsThread, IsThreadFault, ReadsCondition, IsConditionFault, ReadsLocations, IsLocationsFault};
ghost use Rattle.text_values.specs.TestValue.{Content};
ghost use Rattle.cat_grammar.specs.Reads.{ReadsClauses, FaultAt};
ghost use Rattle.text_reading_laws.specs.Laws.{MeansOne, HasOneTextFault, AreExclusive};

/// A text means one thing, if any. The number of threads of the test that a part stands in is one
/// that a machine word holds.
pub fn texts_mean_one()
    ensures test { MeansOne ReadsTest }
    ensures init { (threads : ℕ) → threads < 18446744073709551616 → MeansOne (ReadsInit threads) }
    ensures thread { MeansOne ReadsThread }
    ensures condition { (threads : ℕ) → threads < 18446744073709551616
        → MeansOne (ReadsCondition threads) }
    ensures locations { (threads : ℕ) → threads < 18446744073709551616
        → MeansOne (ReadsLocations threads) }
    ensures model { (form : Form) → MeansOne (ReadsClauses form) }
{}

/// A text has one fault, if any: it breaks one rule, at one offset.
pub fn texts_have_one_fault()
    ensures test { (bytes : List ℕ) → HasOneTextFault (IsTestFault bytes) }
    ensures init { (threads : ℕ) (bytes : List ℕ) → threads < 18446744073709551616
        → HasOneTextFault (IsInitFault threads bytes) }
    ensures thread { (bytes : List ℕ) → HasOneTextFault (IsThreadFault bytes) }
    ensures condition { (threads : ℕ) (bytes : List ℕ)
        → HasOneTextFault (IsConditionFault threads bytes) }
    ensures locations { (threads : ℕ) (bytes : List ℕ)
        → HasOneTextFault (IsLocationsFault threads bytes) }
    ensures model { (form : Form) (bytes : List ℕ) → HasOneTextFault (FaultAt form bytes) }
{}

/// A text that has a fault means nothing.
pub fn texts_at_fault_mean_nothing()
    ensures test { (bytes : List ℕ) → AreExclusive (ReadsTest bytes) (IsTestFault bytes) }
    ensures init { (threads : ℕ) (bytes : List ℕ) → threads < 18446744073709551616
        → AreExclusive (ReadsInit threads bytes) (IsInitFault threads bytes) }
    ensures thread { (bytes : List ℕ) → AreExclusive (ReadsThread bytes) (IsThreadFault bytes) }
    ensures condition { (threads : ℕ) (bytes : List ℕ)
        → AreExclusive (ReadsCondition threads bytes) (IsConditionFault threads bytes) }
    ensures locations { (threads : ℕ) (bytes : List ℕ)
        → AreExclusive (ReadsLocations threads bytes) (IsLocationsFault threads bytes) }
    ensures model { (form : Form) (bytes : List ℕ)
        → AreExclusive (ReadsClauses form bytes) (FaultAt form bytes) }
{}

/// A test that some text means has no more threads than a machine word counts.
pub fn tests_have_few_threads()
    ensures { (bytes : List ℕ) (v : Content) → ReadsTest bytes v
        → length v.threads < 18446744073709551616 }
{}
