//! Laws of edits.

ghost use Rattle.bench_texts.specs.Edits.{Edit};
ghost use Rattle.bench_texts.specs.Held.{texts_of};
ghost use Rattle.bench_text_laws.specs.Laws.{HasOneEditResult};

use bench_texts::Texts;

/// An edit of texts has one result at most.
pub fn results_are_one(texts: &Texts)
    ensures { (e : Edit) → HasOneEditResult (texts_of texts.now) e }
{
    let _texts = texts;
}
