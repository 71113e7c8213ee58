//! What a bench of cells asks of texts, beside what the core asks.

ghost use Rattle.std.specs.Prelude.{◌≡◌, Bool, ℕ, List, Option, Some, IfOk, option_map};
ghost use Rattle.memo_core.specs.declared.keys.Node.{Node as NodeRecord};
ghost use Rattle.memo_core.specs.Step.{Has};
ghost use Rattle.cells.specs.Cells.{SolvedIsFromScratch, UsedIsNeeded, UnreachedIsUntouched};

use memo_core::keys::Node;
use memo_core::texts::Texts;
use std::alloc::{AllocError, Global};

/// Texts of tests and models, by their names. A test under a model is a cell.
pub trait CellTexts: Texts {
    /// What a settled cell carries.
    type Outcome: Drop;

    /// The verdict of a test under a model, where both are there.
    ghost verdict_of: { Self → List ℕ → List ℕ → Option NodeRecord };

    /// The outcome that a value holds, where it holds one.
    ghost outcome_in: { Self.Value → Option Self.Outcome };

    /// What evaluating the present test under the present model from nothing gives.
    ghost from_scratch: { Self → List ℕ → List ℕ → Self.Outcome → Type 0 };

    /// Whether an edit, with the texts before it and after it, reaches the cell of a test and a
    /// model.
    ghost reaches: { Self → Self.Edit → Self → List ℕ → List ℕ → Type 0 };

    /// Whether there are no tests and no models, before the first edit.
    ghost is_empty: { Self → Type 0 };

    /// Whether two edits are the same, wherever they lie in memory.
    ghost same_edit: { Self.Edit → Self.Edit → Type 0 };

    /// No tests and no models.
    fn empty(alloc: Global) -> Self
        ensures none { is_empty result }
        ensures new { (p q : ℕ) → (Self.net result).part p q ≡ 0 }
        ensures last { Self.last result ≡ 0 }
        ensures valid { Self.is_valid result };

    /// The verdict of a test under a model, where both are there.
    fn verdict_of(&self, test: &[u8], model: &[u8]) -> Option<Node>
        ensures { result ≡ verdict_of self.now test.now model.now };

    /// The outcome that a value holds, where it holds one.
    fn outcome_in(value: &Self::Value) -> Option<&Self::Outcome>
        ensures { option_map (λ o. o.now) result ≡ outcome_in value.now };

    /// The same edit once more.
    fn copy_edit(alloc: Global, edit: &Self::Edit) -> Result<Self::Edit, AllocError>
        ensures { IfOk result (λ copy. same_edit copy edit.now) };

    /// The same edit makes the same of texts.
    ghost edited_same: { (t u : Self) (e f : Self.Edit) (number : ℕ) → same_edit e f
        → Self.edited t e number u → Self.edited t f number u };

    /// It is refused alike.
    ghost refused_same: { (t : Self) (e f : Self.Edit) (spent : Bool) (fault : Self.Fault)
        → same_edit e f → Self.refuses t e spent fault → Self.refuses t f spent fault };

    /// Cells use their verdicts.
    ghost verdict_used: { (t : Self) (test model : List ℕ) (n : NodeRecord) → Self.is_valid t
        → verdict_of t test model ≡ Some n → Has (Self.net t).used n };

    /// Each used node is one that the verdict of a cell stands on.
    ghost used_needed: { (t : Self) → Self.is_valid t → UsedIsNeeded (Self.net t) (verdict_of t) };

    /// Where settled nodes hold what is made of the present, a settled verdict holds what
    /// evaluating from nothing gives.
    ghost solved: { (t : Self) (test model : List ℕ) → Self.is_valid t
        → SolvedIsFromScratch Self.makes (Self.net t) outcome_in (verdict_of t test model)
        (from_scratch t test model) };

    /// An edit that does not reach a cell leaves it its verdict, and touches nothing that the
    /// verdict stands on.
    ghost unreached: { (t u : Self) (e : Self.Edit) (number : ℕ) (test model : List ℕ)
        → Self.is_valid t → Self.edited t e number u → (reaches t e u test model → ⊥)
        → UnreachedIsUntouched (Self.keeps u) (Self.net t) (Self.net u) (verdict_of t test model)
        (verdict_of u test model) };
}
