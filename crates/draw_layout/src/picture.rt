//! What is drawn, as data.

/// The two lines of text in a box.
#[derive(Drop)]
pub struct Label {
    /// What the event does.
    pub action: Vec<u8>,
    /// Its instruction; empty where it has none.
    pub instruction: Vec<u8>,
}

/// Where a box stands: the top row has the initial store of this number, and the rows below it have
/// the events of the thread of this number, in order.
#[derive(Clone, Copy)]
pub struct Position {
    /// The column.
    pub column: u8,
    /// The row.
    pub row: u8,
}

/// What a line stands for.
#[derive(Clone, Copy)]
pub enum Ink {
    /// Program order.
    Order,
    /// Reads-from.
    ReadsFrom,
    /// Coherence.
    Coherence,
    /// From-reads.
    FromReads,
    /// A dependency.
    Dependency,
    /// What a fence stands between.
    Fence,
    /// A relation that the model shows.
    Shown,
    /// A step of the reason.
    Step,
}

/// A line from one box to another.
#[derive(Drop)]
pub struct Line {
    /// The box where it begins.
    pub from: Position,
    /// The box where it ends.
    pub to: Position,
    /// Its name.
    pub name: Vec<u8>,
    /// What it stands for.
    pub ink: Ink,
    /// Whether it is thick.
    pub is_thick: bool,
}

/// What is drawn of an execution.
#[derive(Drop)]
pub struct Picture {
    /// Its title.
    pub title: Vec<u8>,
    /// The initial stores.
    pub initial: Vec<Label>,
    /// The events of each thread, in program order.
    pub threads: Vec<Vec<Label>>,
    /// The lines.
    pub lines: Vec<Line>,
}
