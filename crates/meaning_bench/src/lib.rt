//! The bench of tests and models for a reader, who knows what edits make of texts and what a test
//! says under a model, and nothing of how the bench computes: after any list of events, whatever
//! their order, a settled cell shows what its test says under its model, and an edit that does not
//! reach a settled cell leaves it settled with the same outcome. Read `specs/Says` first, then
//! `specs/Shown`.
#![tactic(auto)]

mod tests;
mod views;

ghost use Rattle.std.specs.Prelude.{◌≡◌, ◌↔◌, IfOk, OnErr, IsTrue};
ghost use Rattle.outcome_texts.specs.Cells.{Settled};
ghost use Rattle.bench_texts.specs.BenchTexts.{no_texts};
ghost use Rattle.bench_texts.specs.Held.{texts_of};
ghost use Rattle.cells.specs.Cells.{IsCellShown, IsSettledCell};
ghost use Rattle.bench_instance.specs.StampedTexts.{stamped_net};
ghost use Rattle.bench_laws.specs.Live.{live_cells};
ghost use Rattle.meaning_bench.specs.Says.{SaysIn, IsCellBy};
ghost use Rattle.meaning_bench.specs.Shown.{AreTextsAfter, cell_shown, IsShownAfter, IsShownAround};

use crate::tests::tests_are_meant;
use bench_instance::StampedTexts;
use bench_laws::LiveBench;
use bench_laws::laws::locked_benches_are_right;
use bench_texts::{Edit, EditFault};
use bench_values::NodeValue;
use cells::bench::Bench;
use cells::events::{Event, Reply};
use cells::shown::Shown;
use std::alloc::{AllocError, Global};
use std::sync::Wait;
use value_store::{Store, StoreName};
use verdict::Outcome;
pub use views::{cell_in, view_of};

/// A bench without tests and models. Errors: want of memory.
pub fn new_bench<K: StoreName>(
    alloc: Global,
    store: Store<K, NodeValue>,
) -> Result<LiveBench<K>, AllocError>
    ensures { IfOk result (λ bench. texts_of bench.texts.texts ≡ no_texts) }
{
    Bench::<K, StampedTexts>::new(alloc, store)
}

// What is shown of a test under a model, as the bench has it and as a reader has it.
fn known<'b, K: StoreName>(bench: &'b LiveBench<K>, test: &[u8], model: &[u8]) -> Shown<'b, Outcome>
    ensures is { IsCellShown stamped_net live_cells bench.now test.now model.now result }
    ensures right { IsCellBy (texts_of bench.now.texts.texts) test.now model.now
        (cell_shown result) }
{
    tests_are_meant(bench);
    locked_benches_are_right();
    let _taken = bench.taken();
    bench.shown(test, model)
}

/// What is shown of a test under a model, by their names: an outcome is what the test says under
/// the model, by the present texts. It takes no memory.
pub fn shown<'b, K: StoreName>(
    bench: &'b LiveBench<K>,
    test: &[u8],
    model: &[u8],
) -> Shown<'b, Outcome>
    ensures { IsCellBy (texts_of bench.now.texts.texts) test.now model.now (cell_shown result) }
{
    known(bench, test, model)
}

fn is_outcome(shown: Shown<'_, Outcome>, outcome: &Outcome) -> bool
    ensures { IsTrue result ↔ (cell_shown shown.entry ≡ Settled outcome.now) }
{
    match shown {
        Shown::Settled(settled) => settled.is_same(outcome),
        Shown::Open => false,
        Shown::NoCell => false,
    }
}

// Whether the cell of a test and a model shows this outcome.
fn shows<K: StoreName>(bench: &LiveBench<K>, test: &[u8], model: &[u8], outcome: &Outcome) -> bool
    ensures settled { IsTrue result
        ↔ IsSettledCell stamped_net live_cells bench.now test.now model.now outcome.now }
    ensures says { IsTrue result
        → SaysIn (texts_of bench.now.texts.texts) test.now model.now outcome.now }
{
    is_outcome(known(bench, test, model), outcome)
}

/// Does what `Bench::run_events` does: edits, claims, returns as often as they stand there, late
/// ones too, losses and renewals, in the order of the list. Errors: want of memory, which leaves
/// the texts.
pub fn run_events<R: Wait, K: StoreName>(
    bench: &mut LiveBench<K>,
    rt: &R,
    alloc: Global,
    events: &[Event<Edit>],
) -> Result<Vec<Reply<EditFault>>, AllocError>
    ensures after { IfOk result (λ replies. AreTextsAfter (texts_of bench.old.texts.texts)
        events.now replies.items (texts_of bench.new.texts.texts)) }
    ensures same { OnErr result
        (texts_of bench.new.texts.texts ≡ texts_of bench.old.texts.texts) }
{
    let _taken = bench.taken();
    bench.run_events(rt, alloc, events)
}

/// The replies to a list of events on a new bench, and whether the cell of a test and a model shows
/// this outcome after them: if so, the test says it under the model, by the texts that the accepted
/// edits make. Errors: want of memory.
pub fn shows_after<R: Wait, K: StoreName>(
    rt: &R,
    alloc: Global,
    store: Store<K, NodeValue>,
    events: &[Event<Edit>],
    test: &[u8],
    model: &[u8],
    outcome: &Outcome,
) -> Result<(Vec<Reply<EditFault>>, bool), AllocError>
    ensures { IfOk result (λ r. IsShownAfter events.now r.0.items test.now model.now outcome.now
        r.1) }
{
    let mut bench = new_bench(alloc, store)?;
    let replies = run_events(&mut bench, rt, alloc, events)?;
    let is_shown = shows(&bench, test, model, outcome);
    Ok((replies, is_shown))
}

/// Makes an edit, and says whether the cell of a test and a model shows this outcome before it and
/// after it. An edit that leaves the slice of the cell leaves it settled with the outcome that it
/// showed. Errors: the reason to refuse the edit.
pub fn shows_around<K: StoreName>(
    bench: &mut LiveBench<K>,
    alloc: Global,
    edit: Edit,
    test: &[u8],
    model: &[u8],
    outcome: &Outcome,
) -> Result<(bool, bool), EditFault>
    ensures { IfOk result (λ r. IsShownAround bench.old.texts.texts bench.new.texts.texts edit
        test.now model.now outcome.now r.0 r.1) }
{
    locked_benches_are_right();
    let _taken = bench.taken();
    let before = shows(bench, test, model, outcome);
    match bench.edit(alloc, edit) {
        Ok(_) => Ok((before, shows(bench, test, model, outcome))),
        Err(fault) => Err(fault),
    }
}
