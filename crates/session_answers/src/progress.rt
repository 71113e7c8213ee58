//! Who hears how far a table is.

/// How far a table is.
#[derive(Clone, Copy)]
pub struct Progress {
    /// How many of its cells are settled.
    pub settled: usize,
    /// How many cells it has.
    pub cells: usize,
    /// How many jobs were done for it, where they are counted.
    pub jobs: Option<u64>,
}

/// Who hears how far a table is.
pub trait ProgressListener {
    /// Whether it is to hear now how far the table is. It is asked when the table is begun, and
    /// then after each job.
    fn is_due(&mut self) -> bool;

    /// Hears how far the table is.
    fn hear_progress(&mut self, progress: Progress);

    /// Hears that no more is done for the table.
    fn hear_end(&mut self);
}

/// Is never to hear anything.
#[derive(Drop)]
pub struct NoProgress;

impl ProgressListener for NoProgress {
    fn is_due(&mut self) -> bool {
        false
    }

    fn hear_progress(&mut self, _progress: Progress) {}

    fn hear_end(&mut self) {}
}
