//! What the desk answers.

/// What becomes of an edit that is accepted, with its number.
#[derive(Clone, Copy)]
pub enum Accepted {
    /// It is published, and the viewer was told.
    Now(u64),
    /// It is published with what is published next.
    Later(u64),
}

/// What becomes of the cells that are settled.
#[derive(Clone, Copy)]
pub enum Posted {
    /// They are published.
    Now,
    /// Some are published with what is published next.
    Later,
}

/// What a turn of settling comes to.
#[derive(Clone, Copy)]
pub enum Settling {
    /// Each cell is settled and published, and the viewer was told.
    Done,
    /// Some cell is open, after so many changes of the board.
    Waits(u64),
    /// Memory was refused.
    Refused,
}
