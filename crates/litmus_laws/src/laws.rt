//! Laws of the definitions.

ghost use Rattle.std.specs.Prelude.{◌≡◌, ◌<◌, ℕ, true, false, List};
ghost use Rattle.litmus_tokens.specs.declared.rule.LitmusRule.{LitmusRule};
ghost use Rattle.litmus_tokens.specs.declared.rule.LitmusRule.TheVariants as rules;
ghost use Rattle.litmus_tokens.specs.Faults.{IsFault};
ghost use Rattle.litmus_tokens.specs.declared.stage.Stage.{Stage};
ghost use Rattle.litmus_tokens.specs.declared.stage.Stage.TheVariants.{Magic, Init, CellBegins, Tail};
ghost use Rattle.litmus_tokens.specs.declared.token.Token.{Token};
ghost use Rattle.litmus_tokens.specs.Stage.{part_rule};
ghost use Rattle.litmus_tokens.specs.Texts.{TokenAt, stage_after, test_lexing};
ghost use Rattle.litmus_tokens.specs.Conditions.{Limits, condition_limits, IsConditionText};
ghost use Rattle.litmus_grammar.specs.Grammar.{TestTree, IsTestTree as IsTestTree, spelled_test, IsInitText, IsThreadText, IsLocationsText};
ghost use Rattle.text_values.specs.declared.test.Quantifier.{Quantifier};
ghost use Rattle.text_values.specs.TestValue.{Formula, Content};
ghost use Rattle.litmus_printing.specs.Printing.{condition_text, printed};
ghost use Rattle.litmus_grammar.specs.Texts.{IsStart, ReadsCondition, ReadsTest};
ghost use Rattle.litmus_laws.specs.Parts.{tokens_in, test_parts, StandsIn, IsTestTokenFault, IsOfItsPart, IsOfPart};
ghost use Rattle.litmus_laws.specs.Tokens.{IsTestCut, AreTestRising};
ghost use Rattle.litmus_laws.specs.Written.{IsFormula, IsTest, IsTextOfCondition, IsTextOfTest, IsFormulaWithinLimits, StaysWithin};

/// The printed condition is read as that condition, in a test of `threads` threads.
pub fn printed_condition_is_read()
    // The limits of length, nesting and number aside.
    ensures text { (threads : ℕ) (q : Quantifier) (f : Formula) → threads < 18446744073709551616
        → IsFormula threads f → IsTextOfCondition threads (condition_text q f) q f }
    // Within them, as the reader reads.
    ensures reads { (threads : ℕ) (q : Quantifier) (f : Formula) → threads < 18446744073709551616
        → IsFormula threads f → IsFormulaWithinLimits (condition_text q f) f
        → ReadsCondition threads (condition_text q f) (q, f) }
    // What was read from some text is read again, where its printed text stays within the limits of
    // length and nesting.
    ensures again { (threads : ℕ) (bytes : List ℕ) (q : Quantifier) (f : Formula)
        → threads < 18446744073709551616 → ReadsCondition threads bytes (q, f)
        → StaysWithin (condition_text q f) f → ReadsCondition threads (condition_text q f) (q, f) }
{}

/// The printed test is read as that test.
pub fn printed_is_read()
    // The limits of length, nesting and number aside.
    ensures text { (v : Content) → IsTest v → IsTextOfTest (printed v) v }
    // Within them, as the reader reads.
    ensures reads { (v : Content) → IsTest v → IsFormulaWithinLimits (printed v) v.condition
        → ReadsTest (printed v) v }
    // What was read from some text is read again, where its printed text stays within the limits of
    // length and nesting.
    ensures again { (bytes : List ℕ) (v : Content) → ReadsTest bytes v
        → StaysWithin (printed v) v.condition → ReadsTest (printed v) v }
{}

/// The meaning of each text of a condition, in a test of `threads` threads, can be printed so.
pub fn read_condition_is_written()
    // The limits of length, nesting and number aside.
    ensures text { (threads : ℕ) (bytes : List ℕ) (q : Quantifier) (f : Formula)
        → IsTextOfCondition threads bytes q f → IsFormula threads f }
    // So what the reader reads.
    ensures reads { (threads : ℕ) (bytes : List ℕ) (q : Quantifier) (f : Formula)
        → ReadsCondition threads bytes (q, f) → IsFormula threads f }
{}

/// The meaning of each text of a test that passes the later checks can be printed so.
pub fn read_is_written()
    // The limits of length, nesting and number aside.
    ensures text { (bytes : List ℕ) (v : Content) → IsTextOfTest bytes v → IsTest v }
    // So what the reader reads.
    ensures reads { (bytes : List ℕ) (v : Content) → ReadsTest bytes v → IsTest v }
{}

/// The number of a refused test is that of the part in which the refused token would stand: `PPC`,
/// the name, what stands before the header, the header, the rows, and what stands behind them. A
/// token that names a rule of its own has that.
pub fn refusals_are_of_their_parts()
    // The parts of a test are its text.
    ensures whole { (t : TestTree) → tokens_in (test_parts t) ≡ spelled_test t }
    // The part that the tokens so far lead to is the one in which the next token stands.
    ensures stage { (most : Limits) (t : TestTree) (before : List Token) (here : Token)
        (rule : LitmusRule) → IsTestTree most t → StandsIn (test_parts t) before here rule
        → part_rule (stage_after Magic before) ≡ rule }
    // So a refusal has the part's number, in whatever test it would stand.
    ensures refusal { (most : Limits) (t : TestTree) (ps : List TokenAt) (rule : LitmusRule)
        (offset : ℕ) → IsTestTree most t → (f : IsTestTokenFault ps rule offset)
        → IsOfItsPart ps rule offset f t }
{}

/// The number of a refused part that is read alone is that part's, unless the refused token names a
/// rule of its own.
pub fn refusals_of_parts()
    ensures init { (ps : List TokenAt) (rule : LitmusRule) (offset : ℕ)
        → (f : IsFault (IsStart IsInitText (Init true false)) (Init true false) ps rule offset)
        → IsOfPart rules.Init f }
    ensures thread { (ps : List TokenAt) (rule : LitmusRule) (offset : ℕ)
        → (f : IsFault IsThreadText CellBegins ps rule offset) → IsOfPart rules.Instruction f }
    ensures locations { (threads : ℕ) (ps : List TokenAt) (rule : LitmusRule) (offset : ℕ)
        → (f : IsFault (IsLocationsText threads) Tail ps rule offset) → IsOfPart rules.Condition f }
    ensures condition { (threads : ℕ) (ps : List TokenAt) (rule : LitmusRule) (offset : ℕ)
        → (f : IsFault (IsConditionText condition_limits threads) Tail ps rule offset)
        → IsOfPart rules.Condition f }
{}

/// The tokens of a test's text are pieces of it, none of which goes on. With the gaps between them
/// (blanks, line ends and comments) they cover the text, in rising order.
pub fn tokens_cover_the_text()
    // The text, read from any part on, is cut into such pieces, and its tokens are theirs.
    ensures cut { (start : Stage) (bytes : List ℕ) → IsTestCut start bytes
        (test_lexing start bytes) }
    // It is cut in no other way.
    ensures only { (start : Stage) (bytes : List ℕ) (ps : List TokenAt) → IsTestCut start bytes ps
        → test_lexing start bytes ≡ ps }
    // Each token begins behind the one before it.
    ensures rising { (start : Stage) (bytes : List ℕ) → AreTestRising 0 (test_lexing start bytes) }
{}
