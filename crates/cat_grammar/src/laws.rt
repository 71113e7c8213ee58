//! Laws of the grammar and of the machine that reads it.

ghost use Rattle.std.specs.Prelude.{◌≡◌, ℕ, List, [], ◌∷◌, ◌++◌, Ok, Err};
ghost use Rattle.text_values.specs.ModelValue.{Clause};
ghost use Rattle.cat_tokens.specs.declared.token.Token.{Token};
ghost use Rattle.cat_tokens.specs.declared.token.Token.TheVariants.{End};
ghost use Rattle.cat_tokens.specs.declared.rule.CatRule.{CatRule};
ghost use Rattle.cat_tokens.specs.Tokens.{TokenAt, model_tokens_of};
ghost use Rattle.cat_grammar.specs.declared.form.Form.{Form};
ghost use Rattle.cat_grammar.specs.Grammar.{model_limits, Means, IsFormFault};
ghost use Rattle.cat_grammar.specs.ItemMachine.{clause_start};
ghost use Rattle.cat_grammar.specs.Running.{run_items, items_of};

/// The reader reads exactly the texts of the grammar, within the limits of the language.
pub fn reads_the_grammar()
    // What it takes to the end is a text that means the items it gives.
    ensures found { (form : Form) (ps : List TokenAt) (ts : List Token)
        → model_tokens_of ps ≡ ts ++ End ∷ [] → (cs : List Clause)
        → items_of (run_items model_limits form 0 (clause_start form) ps) ≡ Ok cs
        → Means model_limits form (model_tokens_of ps) cs }
    // A text means nothing else than the items it gives.
    ensures only { (form : Form) (ps : List TokenAt) (cs v : List Clause)
        → items_of (run_items model_limits form 0 (clause_start form) ps) ≡ Ok cs
        → Means model_limits form (model_tokens_of ps) v
        → cs ≡ v }
    // What it refuses is at fault there, by the rule that is broken there.
    ensures fault { (form : Form) (ps : List TokenAt) (rule : CatRule) (offset : ℕ)
        → items_of (run_items model_limits form 0 (clause_start form) ps) ≡ Err (rule, offset)
        → IsFormFault model_limits form ps rule offset }
    // A text that means some items has no fault.
    ensures whole { (form : Form) (ps : List TokenAt) (v : List Clause) (rule : CatRule)
        (offset : ℕ) → Means model_limits form (model_tokens_of ps) v
        → IsFormFault model_limits form ps rule offset
        → ⊥ }
{}
