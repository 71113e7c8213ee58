//! Laws of the grammar and of the machine that reads it.

ghost use Rattle.std.specs.Prelude.{◌≡◌, ℕ, ◌<◌, List, [], ◌∷◌, map, length, Ok, Err, true, false};
ghost use Rattle.litmus_tokens.specs.declared.rule.LitmusRule.{LitmusRule};
ghost use Rattle.litmus_tokens.specs.declared.stage.Stage.TheVariants.{Magic, CellBegins, Tail};
ghost use Rattle.litmus_tokens.specs.declared.stage.Stage.TheVariants as stages;
ghost use Rattle.litmus_tokens.specs.declared.token.Token.TheVariants as tokens;
ghost use Rattle.litmus_tokens.specs.declared.token.Mark.TheVariants.{OpenBrace};
ghost use Rattle.litmus_tokens.specs.Faults.{IsFault};
ghost use Rattle.litmus_tokens.specs.Texts.{TokenAt, test_tokens_of, test_lexing};
ghost use Rattle.litmus_tokens.specs.Conditions.{condition_limits, place_meaning, tree_formula, IsConditionText};
ghost use Rattle.litmus_grammar.specs.declared.parts.TextKind.{TextKind};
ghost use Rattle.litmus_grammar.specs.declared.parts.TextKind.TheVariants.{Test, Thread, Init, Condition, Locations};
ghost use Rattle.litmus_grammar.specs.Grammar.{members, IsTestText, IsInitText, IsThreadText, IsLocationsText};
ghost use Rattle.litmus_grammar.specs.Kept.{StandsUpTo};
ghost use Rattle.litmus_grammar.specs.Laws.{TakesTokens, HoldsCondition, HoldsPlaces, HoldsEntries, HoldsThread, HoldsTest};
ghost use Rattle.litmus_grammar.specs.TextMachine.{TextState, Done, text_start, first_stage, run_parts};
ghost use Rattle.litmus_grammar.specs.Texts.{IsStart};

/// The machine that goes from token to token reads just the conditions of the grammar, within its
/// limits.
pub fn reads_conditions()
    // What it takes to the end is a condition.
    ensures found { (threads : ℕ) (ps : List TokenAt) (s : TextState)
        → threads < 18446744073709551616 → run_parts (text_start Condition threads) ps ≡ Ok s
        → s.part ≡ Done
        → IsConditionText condition_limits threads (test_tokens_of ps) }
    // It takes each condition, and holds what it means.
    ensures complete { (threads : ℕ) (ps : List TokenAt)
        (x : IsConditionText condition_limits threads (test_tokens_of ps))
        → threads < 18446744073709551616
        → TakesTokens Condition threads ps (HoldsCondition x.quantifier
        (tree_formula x.condition)) }
    // What it refuses is at fault there, by the rule that is broken there.
    ensures fault { (threads : ℕ) (ps : List TokenAt) (rule : LitmusRule) (offset : ℕ)
        → threads < 18446744073709551616 → run_parts (text_start Condition threads) ps
        ≡ Err (rule, offset)
        → IsFault (IsConditionText condition_limits threads) Tail ps rule offset }
{}

/// The same for lists of places.
pub fn reads_lists()
    ensures found { (threads : ℕ) (ps : List TokenAt) (s : TextState)
        → run_parts (text_start Locations threads) ps ≡ Ok s → s.part ≡ Done
        → IsLocationsText threads (test_tokens_of ps) }
    ensures complete { (threads : ℕ) (ps : List TokenAt)
        (x : IsLocationsText threads (test_tokens_of ps)) → threads < 18446744073709551616
        → TakesTokens Locations threads ps (HoldsPlaces (map place_meaning (members x.items))) }
    ensures fault { (threads : ℕ) (ps : List TokenAt) (rule : LitmusRule) (offset : ℕ)
        → threads < 18446744073709551616 → run_parts (text_start Locations threads) ps
        ≡ Err (rule, offset)
        → IsFault (IsLocationsText threads) Tail ps rule offset }
{}

/// The same for init blocks. It keeps the byte that each entry begins at.
pub fn reads_init_blocks()
    ensures found { (threads : ℕ) (ps : List TokenAt) (s : TextState)
        → run_parts (text_start Init threads) ps ≡ Ok s → s.part ≡ Done
        → IsInitText (test_tokens_of ps) }
    ensures complete { (threads : ℕ) (ps : List TokenAt) (x : IsInitText (test_tokens_of ps))
        → TakesTokens Init threads ps (HoldsEntries ps (tokens.Mark OpenBrace ∷ [])
        (members x.entries)) }
    ensures fault { (threads : ℕ) (ps : List TokenAt) (rule : LitmusRule) (offset : ℕ)
        → run_parts (text_start Init threads) ps ≡ Err (rule, offset)
        → IsFault (IsStart IsInitText (stages.Init true false)) (stages.Init true false) ps rule
        offset }
{}

/// The same for threads, whose faults are those of the tokens of bytes. It keeps the bytes of the
/// labels.
pub fn reads_threads()
    ensures found { (threads : ℕ) (ps : List TokenAt) (s : TextState)
        → run_parts (text_start Thread threads) ps ≡ Ok s → s.part ≡ Done
        → IsThreadText (test_tokens_of ps) }
    ensures complete { (threads : ℕ) (ps : List TokenAt) (x : IsThreadText (test_tokens_of ps))
        → TakesTokens Thread threads ps (HoldsThread ps x.tree) }
    ensures fault { (threads : ℕ) (bytes : List ℕ) (rule : LitmusRule) (offset : ℕ)
        → run_parts (text_start Thread threads) (test_lexing CellBegins bytes) ≡ Err (rule, offset)
        → IsFault IsThreadText CellBegins (test_lexing CellBegins bytes) rule offset }
{}

/// The same for tests. It keeps the bytes of the entries and of the labels.
pub fn reads_tests()
    ensures found { (ps : List TokenAt) (s : TextState) → length ps < 18446744073709551616
        → run_parts (text_start Test 0) ps ≡ Ok s → s.part ≡ Done
        → IsTestText condition_limits (test_tokens_of ps) }
    ensures complete { (ps : List TokenAt) (x : IsTestText condition_limits (test_tokens_of ps))
        → length ps < 18446744073709551616 → TakesTokens Test 0 ps (HoldsTest ps x.tree) }
    ensures fault { (ps : List TokenAt) (rule : LitmusRule) (offset : ℕ)
        → length ps < 18446744073709551616 → run_parts (text_start Test 0) ps ≡ Err (rule, offset)
        → IsFault (IsStart (IsTestText condition_limits) Magic) Magic ps rule offset }
{}

/// What is kept for the later checks stands in the text, and so does a token that is refused, or at
/// its end.
pub fn stays_in_the_text()
    ensures { (kind : TextKind) (threads : ℕ) (bytes : List ℕ)
        → StandsUpTo (length bytes) (run_parts (text_start kind threads) (test_lexing
        (first_stage kind) bytes)) }
{}
