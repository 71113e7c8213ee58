//! A listener that hears how far a table is whenever it is asked.

use command_answers::{AnswerListener, HeardCommand, Progress, ProgressListener};
use text_values::Item;

/// What was heard: how often of how far a table is and what the last time, how many tables ended,
/// and of how many models.
#[derive(Drop)]
pub struct Hearing {
    pub told: u64,
    pub settled: usize,
    pub cells: usize,
    pub ended: u64,
    pub models: u64,
}

impl Hearing {
    /// Nothing yet.
    pub fn new() -> Hearing {
        Hearing {
            told: 0,
            settled: 0,
            cells: 0,
            ended: 0,
            models: 0,
        }
    }
}

impl ProgressListener for Hearing {
    fn is_due(&mut self) -> bool {
        true
    }

    fn hear_progress(&mut self, progress: Progress) {
        self.told = self.told.saturating_add(1);
        self.settled = progress.settled;
        self.cells = progress.cells;
    }

    fn hear_end(&mut self) {
        self.ended = self.ended.saturating_add(1);
    }
}

impl AnswerListener for Hearing {
    fn hear(&mut self, _command: HeardCommand<'_>, _answer: &[u8]) {}

    fn hear_model(&mut self, _name: &[u8], _numbers: &[u64], _items: &[Item]) {
        self.models = self.models.saturating_add(1);
    }

    fn hear_texts(&mut self, _model: &[u8], _test: &[u8], _is_refused: bool) {}
}
