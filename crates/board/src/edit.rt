//! What an edit of the bench does to a board.

ghost use Rattle.std.specs.Prelude.{◌≡◌, ◌<◌, ◌≤◌, ℕ, List, IfOk, OnOk, Some, map, vec_len};
ghost use Rattle.std.specs.List.{range_with_len};
ghost use Rattle.std.specs.Arc.{arc_value};
ghost use Rattle.bench_texts.specs.Replacements.{printed_by, IsReplaceable};
ghost use Rattle.bench_texts.specs.Held.{IsModelRead};
ghost use Rattle.board.specs.Legal.{tests_and_models, Announces, MayFollow};
ghost use Rattle.board.specs.Lines.{ListsAmong, ListsOneMore, test_cell, model_cell};

use crate::operation::{BoardEdit, BoardOp, CellIndex, NameChange};
use bench_slices::reaches;
use bench_texts::{NamedModel, Prepared, Replacement, Texts};
use std::alloc::{AllocError, Global};
use std::snapshot::Snapshot;
use std::sync::Arc;
use text_values::{Name, Test};

// The cells of a test under so many models.
fn cells_of_test(alloc: Global, test: usize, models: usize) -> Result<Vec<CellIndex>, AllocError>
    ensures { IfOk result (λ v. v.items ≡ map (test_cell test) (range_with_len 0 models)) }
{
    let mut cells = Vec::new(alloc);
    for model in 0..models {
        cells.push(CellIndex { test, model })?;
    }
    Ok(cells)
}

// The cells of so many tests under a model.
fn cells_of_model(alloc: Global, tests: usize, model: usize) -> Result<Vec<CellIndex>, AllocError>
    ensures { IfOk result (λ v. v.items ≡ map (model_cell model) (range_with_len 0 tests)) }
{
    let mut cells = Vec::new(alloc);
    for test in 0..tests {
        cells.push(CellIndex { test, model })?;
    }
    Ok(cells)
}

// Lists the cell too, if the edit reaches it.
fn push_reached(
    texts: &Texts,
    prepared: &Prepared,
    at: CellIndex,
    reached: &mut Vec<CellIndex>,
) -> Result<(), AllocError>
    ensures { OnOk result (ListsOneMore (tests_and_models texts.now) prepared.now.whole
        prepared.now.replacement at reached.old.items reached.new.items) }
{
    if !reaches(texts, prepared, at.test, at.model) {
        return Ok(());
    }
    reached.push(at)?;
    Ok(())
}

// Those of the cells that the edit reaches.
fn reached_among(
    alloc: Global,
    texts: &Texts,
    prepared: &Prepared,
    cells: &[CellIndex],
) -> Result<Vec<CellIndex>, AllocError>
    ensures { IfOk result (λ v. ListsAmong (tests_and_models texts.now) prepared.now.whole
        prepared.now.replacement cells.now v.items) }
{
    let mut reached = Vec::new(alloc);
    for at in cells {
        push_reached(texts, prepared, *at, &mut reached)?;
    }
    Ok(reached)
}

// A name that boards share.
fn shared_name(alloc: Global, name: &[u8]) -> Result<Arc<Name>, AllocError>
    ensures { IfOk result (λ n. arc_value n ≡ name.now) }
{
    Ok(Arc::new(alloc, Name::new(alloc, name)?)?)
}

// The printed items of the model that the edit puts, and none where it puts none.
fn shared_items(alloc: Global, prepared: &Prepared) -> Result<Arc<Vec<u8>>, AllocError>
    ensures { IfOk result (λ v. (items : List ℕ) → printed_by prepared.now.replacement ≡ Some items
        → (arc_value v).items ≡ items) }
{
    let items = match prepared.printed() {
        Some(printed) => Vec::from_slice(alloc, printed)?,
        None => Vec::new(alloc),
    };
    Ok(Arc::new(alloc, items)?)
}

/// What an edit does to names and cells.
struct Announcement {
    change: NameChange,
    reached: Vec<CellIndex>,
}

fn announce_test(
    alloc: Global,
    texts: &Texts,
    prepared: &Prepared,
    at: usize,
    name: &[u8],
) -> Result<Announcement, AllocError>
    ensures { IfOk result (λ a. (test : Test)
        → prepared.now.replacement ≡ Replacement.PutTest at test → test.name ≡ name.now
        → at ≤ vec_len texts.now.tests
        → Announces (tests_and_models texts.now) prepared.now.whole a.change a.reached.items
        prepared.now.replacement) }
{
    let cells = cells_of_test(alloc, at, texts.models().len())?;
    let reached = reached_among(alloc, texts, prepared, &cells)?;
    let name = shared_name(alloc, name)?;
    let change = NameChange::PutTest { at, name };
    Ok(Announcement { change, reached })
}

fn announce_model(
    alloc: Global,
    texts: &Texts,
    prepared: &Prepared,
    at: usize,
    name: &[u8],
) -> Result<Announcement, AllocError>
    ensures { IfOk result (λ a. (model : NamedModel) (next : ℕ)
        → prepared.now.replacement ≡ Replacement.PutModel at model next → model.name ≡ name.now
        → at ≤ vec_len texts.now.models → IsModelRead model
        → Announces (tests_and_models texts.now) prepared.now.whole a.change a.reached.items
        prepared.now.replacement) }
{
    let cells = cells_of_model(alloc, texts.tests().len(), at)?;
    let reached = reached_among(alloc, texts, prepared, &cells)?;
    let name = shared_name(alloc, name)?;
    let items = shared_items(alloc, prepared)?;
    let change = NameChange::PutModel { at, name, items };
    Ok(Announcement { change, reached })
}

fn announce(alloc: Global, texts: &Texts, prepared: &Prepared) -> Result<Announcement, AllocError>
    requires { IsReplaceable texts.now prepared.now.replacement }
    ensures { IfOk result (λ a. Announces (tests_and_models texts.now) prepared.now.whole a.change
        a.reached.items prepared.now.replacement) }
{
    match prepared.replacement() {
        Replacement::PutTest { at, test } => announce_test(
            alloc,
            texts,
            prepared,
            *at,
            test.name.as_bytes(),
        ),
        Replacement::PutModel { at, model, .. } => announce_model(
            alloc,
            texts,
            prepared,
            *at,
            model.name(),
        ),
        Replacement::DropTest { at } => Ok(Announcement {
            change: NameChange::DropTest { at: *at },
            reached: Vec::new(alloc),
        }),
        Replacement::DropModel { at } => Ok(Announcement {
            change: NameChange::DropModel { at: *at },
            reached: Vec::new(alloc),
        }),
    }
}

impl BoardEdit {
    /// What an edit of this number does to boards, from the texts on which it was prepared. Errors:
    /// want of memory.
    pub fn new(
        alloc: Global,
        number: u64,
        texts: &Texts,
        prepared: &Prepared,
    ) -> Result<BoardEdit, AllocError>
        requires { IsReplaceable texts.now prepared.now.replacement }
        ensures follows { (last : ℕ) → last < number
            → IfOk result (λ e. MayFollow (tests_and_models texts.now) last (BoardOp.Edit e)) }
        ensures prepared { IfOk result (λ e. e.prepared.value ≡ prepared.now) }
        ensures number { IfOk result (λ e. e.number ≡ number) }
    {
        let Announcement { change, reached } = announce(alloc, texts, prepared)?;
        Ok(BoardEdit {
            number,
            change,
            reached,
            prepared: Snapshot::of(prepared),
        })
    }
}
