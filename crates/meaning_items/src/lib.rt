//! Laws of the expressions and items of a model: what trees of the program mean, columns of names,
//! and answers of checks and flags over the candidates of a space are what the definitions say.
//! Read in specs/: Formulas, then each file names the next. Formulas: after `Cat` of
//! `meaning/specs` and `Functions` of `binding_kinds/specs`. Alike: after `Meaning` and `Least` of
//! `cat_machine/specs`. Slots: after `Answers` of `from_scratch/specs`.
#![tactic(auto)]

ghost use Rattle.std.specs.Prelude.{ℕ, ◌≡◌, List, ◌∷◌, Some};
ghost use Rattle.meaning_items.specs.FunctionLaws.{FunctionsArePutIn};
ghost use Rattle.meaning_items.specs.TreeLaws.{OperatorsMeanTheSame, TermsMeanTheSame, ApplyingBinds, LetRecIsLeast};
ghost use Rattle.binding_kinds.specs.Value.{Naming};
ghost use Rattle.meaning_items.specs.Slots.{naming_in};
ghost use Rattle.text_values.specs.declared.model.Item.{Item};
ghost use Rattle.binding_graph.specs.declared.resolved.ResolvedItem.{ResolvedItem};
ghost use Rattle.candidate_spaces.specs.declared.candidate.Space.{Space};
ghost use Rattle.meaning_items.specs.ColumnLaws.{ColumnsAreMeant};
ghost use Rattle.meaning_items.specs.Laws.{AnswersAreMeant, KeptAreMet};

/// An expression without fault means what it means with the functions that it applies put in.
pub fn functions_are_put_in()
    ensures { FunctionsArePutIn }
{}

/// The operators of cat make of sets and relations what the definitions say.
pub fn operators_mean_the_same()
    ensures { OperatorsMeanTheSame }
{}

/// The tree of an expression without fault, behind items without fault, is the set or the relation
/// that the definitions say.
pub fn terms_mean_the_same()
    ensures { TermsMeanTheSame }
{}

/// Applying a function means its body where its parameters are bound to the arguments.
pub fn applying_binds()
    ensures { ApplyingBinds }
{}

/// The least values that satisfy the equations of a recursive group are its least solution.
pub fn let_rec_is_least()
    ensures { LetRecIsLeast }
{}

/// A name keeps its slot behind one more name.
pub fn names_keep_their_slots()
    ensures { (names : List Naming) (later : Naming) (slot : ℕ) (n : Naming)
        → naming_in names slot ≡ Some n → naming_in (later ∷ names) slot ≡ Some n }
{}

/// Behind the items of a model without fault each name's columns are what the definitions bind.
pub fn columns_are_meant()
    ensures { (space : Space) (items : List Item) (resolved : List ResolvedItem)
        → ColumnsAreMeant space items resolved }
{}

/// The answers of the checks and the flags of a model without fault are those of the definitions:
/// true for a candidate just where the check is met there.
pub fn answers_are_meant()
    ensures { (space : Space) (items : List Item) (resolved : List ResolvedItem)
        → AnswersAreMeant space items resolved }
{}

/// A candidate is kept by the answers of the checks just where all checks are met there.
pub fn kept_are_met()
    ensures { (space : Space) (items : List Item) (resolved : List ResolvedItem)
        → KeptAreMet space items resolved }
{}
