//! Laws of resolution.
//!
//! - What an item is resolved to depends only on its text and on what its names stand for:
//!   specs/ItemLaws, after `Resolved` of `binding_graph/specs`.
//! - After an edit of its model an item does what it did, kinds left out, if it says what it said
//!   and uses what it used: specs/Reread.
#![tactic(auto)]

ghost use Rattle.binding_laws.specs.ItemLaws.{Pairing, Scope, IsAlikeFunction, HaveAlikeItems, HaveItemsAlikeByText};
ghost use Rattle.binding_laws.specs.Reread.{UsesAreSeen, ItemsAreReadAgain};

use text_values::ModelText;

/// Items of one text whose names stand for the same in two models are resolved to the same steps
/// where kinds count, at whatever index they stand, and use names that stand for each other, in the
/// same order.
pub fn items_are_alike(model: &ModelText, other: &ModelText)
    ensures { HaveAlikeItems model.now other.now }
{
    let _model = model;
    let _other = other;
}

/// A function whose names stand for the same in two models is the same to those who apply it in
/// both.
pub fn functions_are_alike()
    ensures { (p : Pairing) (s o : Scope) → IsAlikeFunction p s o }
{}

/// Items of one text are resolved to the same steps where kinds count, at whatever indices of two
/// models they stand, and use names that stand for each other, in the same order, where their names
/// are resolved alike: to what stands for the same, and to functions of one text whose own names
/// are resolved alike in turn.
pub fn items_by_what_they_say(model: &ModelText, other: &ModelText)
    ensures { HaveItemsAlikeByText model.now other.now }
{
    let _model = model;
    let _other = other;
}

/// All names of other items that an item of a model without fault uses have a number and a
/// spelling, and all functions that it applies a number and a text.
pub fn uses_are_seen()
    ensures { UsesAreSeen }
{}

/// In two models without fault whose common items stand in one order, an item of one number and one
/// text does the same, kinds left out, if the names of other items that it uses have the same
/// numbers and spellings, and the functions that it applies the same numbers and texts.
pub fn items_are_read_again()
    ensures { ItemsAreReadAgain }
{}
