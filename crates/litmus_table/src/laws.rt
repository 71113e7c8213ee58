//! What the reader of tables takes, in terms of the grammar.

ghost use Rattle.std.specs.Prelude.{◌≡◌, ◌↔◌, ℕ, List, Some, None, true};
ghost use Rattle.litmus_tokens.specs.declared.token.Token.{Token};
ghost use Rattle.litmus_tokens.specs.Texts.{TokenAt, test_tokens_of, begins_tail};
ghost use Rattle.litmus_tokens.specs.Faults.{Begins};
ghost use Rattle.litmus_words.specs.Machine.{TableState, table_step, is_row_start};
ghost use Rattle.litmus_table.specs.Laws.{IsTable, IsThread, run_table, columns, TakesAll, FinishesTable, TakesRows, TakesCells, is_whole_table, GivesRules};

/// Token by token, the reader takes the rows of tables and nothing else, and keeps what they mean.
/// What it has taken begins some rows, and it takes all that begins some.
pub fn takes_tables()
    // What it takes to a row's end are rows.
    ensures sound { (others : ℕ) (ps : List TokenAt) (s : TableState)
        → run_table (columns others) ps ≡ Some s → is_row_start s ≡ true
        → IsTable others (test_tokens_of ps) }
    // It takes all rows, and keeps what they mean, with the bytes of their labels.
    ensures complete { (others : ℕ) (qs ps rs : List TokenAt) (t : IsTable others
        (test_tokens_of ps))
        → TakesRows others qs ps rs t.rows }
    // Wherever it stands, some tokens end the row.
    ensures finishes { (others : ℕ) (ps : List TokenAt) (s : TableState)
        → run_table (columns others) ps ≡ Some s → FinishesTable is_row_start s }
    // The tokens that it takes are those that begin some rows.
    ensures stops { (others : ℕ) (ps : List TokenAt)
        → TakesAll (columns others) ps ↔ Begins (IsTable others) (test_tokens_of ps) }
    // What stands behind the rows begins no row.
    ensures apart { (s : TableState) (t : Token) (offset : ℕ) → is_row_start s ≡ true
        → begins_tail t ≡ true → table_step s t offset ≡ None }
{}

/// The same for the text of a thread alone.
pub fn takes_threads()
    ensures sound { (ps : List TokenAt) (s : TableState) → run_table (columns 0) ps ≡ Some s
        → is_whole_table s ≡ true → IsThread (test_tokens_of ps) }
    ensures complete { (qs ps rs : List TokenAt) (t : IsThread (test_tokens_of ps))
        → TakesCells qs ps rs t.tree }
    ensures finishes { (ps : List TokenAt) (s : TableState) → run_table (columns 0) ps ≡ Some s
        → FinishesTable is_whole_table s }
    ensures stops { (ps : List TokenAt) → TakesAll (columns 0) ps ↔ Begins IsThread
        (test_tokens_of ps) }
{}

/// The rule that the reader answers for a token that cannot stand is the one that it breaks.
pub fn gives_rules()
    ensures { GivesRules }
{}
