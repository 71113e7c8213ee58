//! Laws of the definitions.

ghost use Rattle.std.specs.Prelude.{◌≡◌, List, [], ◌∷◌, ◌++◌, ℕ, true};
ghost use Rattle.text_values.specs.ModelValue.{Clause};
ghost use Rattle.cat_printing.specs.Printing.{printed_item, printed_model};
ghost use Rattle.cat_tokens.specs.declared.token.Token.{Token};
ghost use Rattle.cat_tokens.specs.declared.token.Token.TheVariants as tokens;
ghost use Rattle.cat_tokens.specs.Lexer.{model_lexing};
ghost use Rattle.cat_tokens.specs.Tokens.{TokenAt};
ghost use Rattle.cat_grammar.specs.declared.form.Form.{Form};
ghost use Rattle.cat_grammar.specs.Grammar.{Limits, is_rec_or_and};
ghost use Rattle.cat_laws.specs.Parts.{IsPath, TextGoesOn};
ghost use Rattle.cat_laws.specs.Tokens.{IsModelCut, AreModelRising};
ghost use Rattle.cat_laws.specs.Written.{IsWritable, AreWritable, IsTextOfItem, IsTextOfModel, IsItemWithinLimits, IsModelWithinLimits, ItemStaysWithin, ModelStaysWithin, ReadsItem, ReadsModel};

/// The printed item is read as that item.
pub fn printed_item_is_read()
    // The limits of length, nesting and number aside.
    ensures text { (c : Clause) → IsWritable c → IsTextOfItem (printed_item c) c }
    // Within them, as the reader reads.
    ensures reads { (c : Clause) → IsWritable c → IsItemWithinLimits c
        → ReadsItem (printed_item c) c }
    // What was read from some text is read again, where its printed text stays within the limits of
    // length and nesting.
    ensures again { (bytes : List ℕ) (c : Clause) → ReadsItem bytes c → ItemStaysWithin c
        → ReadsItem (printed_item c) c }
{}

/// The printed model is read as that model.
pub fn printed_is_read()
    // The limits of length, nesting and number aside.
    ensures text { (cs : List Clause) → AreWritable cs → IsTextOfModel (printed_model cs) cs }
    // Within them, as the reader reads.
    ensures reads { (cs : List Clause) → AreWritable cs → IsModelWithinLimits cs
        → ReadsModel (printed_model cs) cs }
    // What was read from some text is read again, where its printed text stays within the limits of
    // length and nesting.
    ensures again { (bytes : List ℕ) (cs : List Clause) → ReadsModel bytes cs → ModelStaysWithin cs
        → ReadsModel (printed_model cs) cs }
{}

/// What a text reads as can be printed so.
pub fn read_is_written()
    // The limits of length, nesting and number aside.
    ensures item { (bytes : List ℕ) (c : Clause) → IsTextOfItem bytes c → IsWritable c }
    ensures model { (bytes : List ℕ) (cs : List Clause) → IsTextOfModel bytes cs → AreWritable cs }
    // So what the reader reads.
    ensures read_item { (bytes : List ℕ) (c : Clause) → ReadsItem bytes c → IsWritable c }
    ensures read_model { (bytes : List ℕ) (cs : List Clause) → ReadsModel bytes cs
        → AreWritable cs }
{}

/// The tokens of a model's text are the longest pieces that spell tokens. With the gaps between
/// them (blanks, line ends and comments) they cover the text, in rising order.
pub fn tokens_cover_the_text()
    // The text is cut into such pieces, and its tokens are theirs.
    ensures cut { (bytes : List ℕ) → IsModelCut bytes (model_lexing bytes) }
    // It is cut in no other way.
    ensures only { (bytes : List ℕ) (ps : List TokenAt) → IsModelCut bytes ps → model_lexing bytes
        ≡ ps }
    // Each token begins behind the one before it.
    ensures rising { (bytes : List ℕ) → AreModelRising 0 (model_lexing bytes) }
{}

/// Two refusals have the number of what would stand there. Behind `include` a model has the string
/// of an include, so another string is refused there as an include of another file (C3). Behind a
/// name that follows `rec` or `and` it has the `=` of a binding, so a parenthesis is refused there
/// as a function (C4).
pub fn refusals_are_of_their_parts()
    ensures path { (most : Limits) (form : Form) (before : List Token) (here : Token)
        → TextGoesOn most form (before ++ tokens.Include ∷ []) here → IsPath here }
    ensures equals { (most : Limits) (form : Form) (before : List Token) (a : Token) (n : List ℕ)
        (here : Token) → is_rec_or_and a ≡ true
        → TextGoesOn most form (before ++ a ∷ tokens.Name n ∷ []) here → here ≡ tokens.Equals }
{}
