//! The operations that change a board.

use bench_texts::Prepared;
use std::snapshot::Snapshot;
use std::sync::Arc;
use text_values::Name;
use verdict::Outcome;

/// A cell, by the indexes of its test and of its model.
#[derive(Clone, Copy)]
pub struct CellIndex {
    /// The index of the test.
    pub test: usize,
    /// The index of the model.
    pub model: usize,
}

/// What an edit does to the names of a board. An index is that before the edit.
#[derive(Drop)]
pub enum NameChange {
    /// A test is put: at the index of its name, or as the last where the index is behind the last.
    PutTest {
        /// The index of the test.
        at: usize,
        /// Its name.
        name: Arc<Name>,
    },
    /// A test goes.
    DropTest {
        /// The index of the test.
        at: usize,
    },
    /// A model is put, as a test is.
    PutModel {
        /// The index of the model.
        at: usize,
        /// Its name.
        name: Arc<Name>,
        /// Its items, as the bench prints them.
        items: Arc<Vec<u8>>,
    },
    /// A model goes.
    DropModel {
        /// The index of the model.
        at: usize,
    },
}

/// An accepted edit, as a board takes it.
pub struct BoardEdit {
    /// The number of the edit.
    pub number: u64,
    /// What it does to the names.
    pub change: NameChange,
    /// The cells that it reaches, where it puts a test or a model.
    pub reached: Vec<CellIndex>,
    /// The edit itself, which contracts alone read.
    pub prepared: Snapshot<Prepared>,
}

impl Drop for BoardEdit {
    fn drop(self) {
        let BoardEdit {
            number: _,
            change: _,
            reached: _,
            prepared: _,
        } = self;
    }
}

/// A change of a board: what the calls of an author and the results that the bench accepts do to
/// it.
pub enum BoardOp {
    /// An accepted edit.
    Edit(BoardEdit),
    /// A cell is settled with this outcome.
    Settle {
        /// The cell.
        at: CellIndex,
        /// The outcome, which all boards share.
        outcome: Arc<Outcome>,
    },
}

impl Drop for BoardOp {
    fn drop(self) {
        match self {
            BoardOp::Edit(_) => {},
            BoardOp::Settle { at: _, outcome: _ } => {},
        }
    }
}
