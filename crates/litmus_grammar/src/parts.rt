//! The kinds of texts, and what the reader expects in the lists of a text.

use litmus_tokens::PlaceExpectation;
use text_values::Place;

/// The kind of a text.
#[derive(Clone, Copy)]
pub enum TextKind {
    /// A whole test.
    Test,
    /// A thread.
    Thread,
    /// An init block.
    Init,
    /// A condition.
    Condition,
    /// A list of locations, or nothing.
    Locations,
}

/// What the reader expects next in the init block.
#[derive(Drop)]
pub enum InitExpectation {
    /// `{`.
    WantsOpen,
    /// An entry or `}`.
    WantsEntry,
    /// The next token of the observable of an entry.
    InPlace(PlaceExpectation),
    /// `=`, behind this observable.
    WantsEquals(Place),
    /// The value of this observable, behind `=`.
    WantsValue(Place),
    /// `;` or `}`, behind an entry.
    HasEntry,
}

/// The result of a step over a token of the init block.
#[derive(Drop)]
pub enum InitStep {
    /// The block goes on.
    Goes(InitExpectation),
    /// The block has ended.
    Ends,
}

/// What the reader expects next in the list of `locations`.
#[derive(Drop)]
pub enum ItemExpectation {
    /// An observable, behind `[`.
    WantsFirst,
    /// An observable or `]`, behind `;`.
    WantsNext,
    /// The next token of an observable.
    InItem(PlaceExpectation),
    /// `;` or `]`, behind an observable.
    HasItem,
}
