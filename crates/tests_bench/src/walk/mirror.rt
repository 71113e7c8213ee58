//! The same texts beside a bench or a desk, with what evaluating them from nothing gives.

use crate::walk::draw::Drawn;
use bench_texts::{Edit, Texts};
use cut_spaces::eval_cell;
use outcome_texts::outcome_log;
use std::alloc::{AllocError, Global};
use std::sync::Arc;
use verdict::Outcome;

/// The log of a cell, by the names of its test and its model.
#[derive(Drop)]
struct Cell {
    test: Vec<u8>,
    model: Vec<u8>,
    log: Vec<u8>,
}

/// What evaluating each cell of some texts from nothing gives.
#[derive(Drop)]
pub struct Logs {
    cells: Vec<Cell>,
}

impl Logs {
    /// Evaluates each cell.
    fn of(alloc: Global, texts: &Texts) -> Result<Logs, AllocError> {
        let mut cells = Vec::new(alloc);
        for test in texts.tests() {
            for model in texts.models() {
                let outcome = eval_cell(alloc, test, model.text())?;
                cells.push(Cell {
                    test: Vec::from_slice(alloc, test.name.as_bytes())?,
                    model: Vec::from_slice(alloc, model.name())?,
                    log: outcome_log(alloc, test.name.as_bytes(), &outcome)?,
                })?;
            }
        }
        Ok(Logs { cells })
    }

    /// The log of a cell, if it is there.
    pub fn of_cell(&self, test: &[u8], model: &[u8]) -> Option<&[u8]> {
        for cell in &self.cells {
            if cell.test.as_slice() == test && cell.model.as_slice() == model {
                return Some(cell.log.as_slice());
            }
        }
        None
    }
}

/// Whether the log of an outcome of a test is the one that is wanted, if one is.
pub fn is_wanted(
    alloc: Global,
    test: &[u8],
    outcome: &Outcome,
    wanted: Option<&[u8]>,
) -> Result<bool, AllocError> {
    let log = outcome_log(alloc, test, outcome)?;
    match wanted {
        Some(bytes) => Ok(bytes == log.as_slice()),
        None => Ok(false),
    }
}

/// The texts, with the logs of their cells.
#[derive(Drop)]
pub struct Mirror {
    texts: Texts,
    logs: Arc<Logs, Global>,
}

impl Mirror {
    /// No texts. Errors: want of memory.
    pub fn new(alloc: Global) -> Result<Mirror, AllocError> {
        let texts = Texts::new(alloc);
        let logs = Arc::new(alloc, Logs::of(alloc, &texts)?)?;
        Ok(Mirror { texts, logs })
    }

    /// Makes an edit that was drawn, and says whether it is accepted.
    pub fn edit(&mut self, alloc: Global, drawn: &Drawn) -> Result<bool, AllocError> {
        let edit = drawn.edit(alloc)?;
        self.make(alloc, &edit)
    }

    fn make(&mut self, alloc: Global, edit: &Edit) -> Result<bool, AllocError> {
        match self.texts.prepare_unless_spent(alloc, edit, false) {
            Ok(prepared) => {
                self.texts.commit(prepared);
                self.logs = Arc::new(alloc, Logs::of(alloc, &self.texts)?)?;
                Ok(true)
            }
            Err(_) => Ok(false),
        }
    }

    /// The logs of the cells.
    pub fn logs(&self) -> &Arc<Logs, Global> {
        &self.logs
    }

    /// The number of an item of a model: 0 where there is none.
    pub fn item_number(&self, model: &[u8], draw: u64) -> u64 {
        match self.texts.models().get(self.texts.model_index(model)) {
            Some(model) => {
                let numbers = model.numbers();
                let count = numbers.len() as u64;
                let index = if count == 0 { 0 } else { draw % count };
                numbers.get(index as usize).copied().unwrap_or(0)
            }
            None => 0,
        }
    }
}
