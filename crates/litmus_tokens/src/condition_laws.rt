//! What the reader of propositions takes, in terms of the grammar.

ghost use Rattle.std.specs.Prelude.{◌≡◌, ◌<◌, ℕ, List, [], Some};
ghost use Rattle.text_values.specs.TestValue.{Formula};
ghost use Rattle.litmus_tokens.specs.declared.token.Token.{Token};
ghost use Rattle.litmus_tokens.specs.Conditions.{Limits, IsProposition};
ghost use Rattle.litmus_tokens.specs.ConditionMachine.{ConditionFrame, ConditionExpectation, Wants, proposition};
ghost use Rattle.litmus_tokens.specs.ConditionLaws.{FinishesFormula, TakesWhatBegins};

/// Token by token, within any limits, the reader takes the propositions and nothing else, and gives
/// what they mean. What it has taken begins a proposition, and it takes all that begins one: so the
/// first token that it refuses is the first with which the tokens begin none.
pub fn takes_propositions()
    // What it takes to its end is a proposition with this meaning.
    ensures sound { (most : Limits) (threads : ℕ) → threads < 18446744073709551616
        → (ts : List Token) (v : Formula) → proposition most threads [] 0 Wants ts ≡ Some v
        → IsProposition most threads ts v }
    // It takes each proposition, and gives its meaning.
    ensures complete { (most : Limits) (threads : ℕ) → threads < 18446744073709551616
        → (ts : List Token) (v : Formula) → IsProposition most threads ts v
        → proposition most threads [] 0 Wants ts ≡ Some v }
    // The tokens that it takes are those that begin a proposition.
    ensures stops { (most : Limits) (threads : ℕ) → threads < 18446744073709551616
        → TakesWhatBegins most threads }
    // Wherever it stands, some tokens end the proposition.
    ensures finishes { (most : Limits) (threads : ℕ) (frames : List ConditionFrame) (used : ℕ)
        (expected : ConditionExpectation) → FinishesFormula most threads frames used expected }
{}
