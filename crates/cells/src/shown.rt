//! What a cell shows.

/// What is shown of a test under a model.
pub enum Shown<'a, O> {
    /// The cell is settled: its outcome.
    Settled(&'a O),
    /// Its outcome is not known.
    Open,
    /// There is no such test or no such model.
    NoCell,
}
