//! Laws of names and numbers, and of the order of items.

ghost use Rattle.std.specs.Prelude.{Bool};
ghost use Rattle.memo_core.specs.Step.{Has};
ghost use Rattle.bench_texts.specs.BenchTexts.{BenchTexts, PlainModel};
ghost use Rattle.bench_texts.specs.Edits.{Edit, Applies};
ghost use Rattle.bench_text_laws.specs.Orderly.{numbers_of, IsOrderly};
ghost use Rattle.bench_text_laws.specs.Order.{PlainItemsGoOn, AreNumbersInOneOrder, AreTogether};

/// After an edit each test and each model still has a name of its own, and each item a number of
/// its own.
pub fn names_and_numbers_stay_apart()
    ensures { (t u : BenchTexts) (spent : Bool) (e : Edit) → IsOrderly t → Applies t spent e u
        → IsOrderly u }
{}

/// After an edit the items that stood there before still stand in their order, a new item has the
/// number that was kept for the next item or a greater one, and the number that is kept now is no
/// less.
pub fn items_stay_in_order()
    ensures { (t u : BenchTexts) (spent : Bool) (e : Edit) → IsOrderly t → Applies t spent e u
        → PlainItemsGoOn t u }
{}

/// Without an edit the items go on from themselves, and where they go on twice they go on over
/// both.
pub fn order_lasts_over_edits()
    ensures without_edits { (t : BenchTexts) → PlainItemsGoOn t t }
    ensures over_both { (t u v : BenchTexts) → IsOrderly t → PlainItemsGoOn t u → PlainItemsGoOn u v
        → PlainItemsGoOn t v }
{}

/// The items that stand in a model of earlier texts and in a model of later texts stand in one
/// order in both.
pub fn models_stay_in_order()
    ensures { (t u : BenchTexts) (m w : PlainModel) → IsOrderly u → PlainItemsGoOn t u
        → Has t.models m
        → Has u.models w → AreNumbersInOneOrder (numbers_of m) (numbers_of w) }
{}

/// After an edit the items of one model that still stand are items of one model.
pub fn items_stay_together()
    ensures { (t u : BenchTexts) (spent : Bool) (e : Edit) → IsOrderly t → Applies t spent e u
        → AreTogether t u }
{}
