//! One history of operations, which only grows. It exists in the proofs alone; in the code it is
//! its length.

ghost use Rattle.std.specs.Prelude.{◌≡◌, ◌<◌, ◌≤◌, ◌^◌, ◌++◌, ◌∷◌, ◌↔◌, [], length, MatchBool, IsTrue};
ghost use mathlib.Core.List.{IsPrefix};
ghost use Rattle.desk_history.specs.Rules.{head_of};

use crate::operations::Operations;
use logbook::{Gain, Offer, Plain, Play, Rule, Seen, Start, Word};
use std::marker::{Brand, Model, PhantomData};

/// The rule of a book.
pub struct Law;

impl<O> Rule<O, u64> for Law {
    ghost use Rattle.std.specs.Prelude.{[]};
    ghost use base.Fml.{ftrue};
    ghost use Rattle.desk_history.specs.Rules.{HasLengthOf};

    ghost holds = { λ cells log. HasLengthOf cells log };

    ghost first = { [] };

    ghost hinted = { λ n log. Unit {0} };

    ghost shows = { λ log. [] };

    ghost keeps = { λ names log. ftrue };

    ghost moves = { λ ask before after answer. Unit {0} };
}

/// Callers trade nothing.
pub struct Nothing;

impl<O> Gain<O, u64> for Nothing {
    ghost use base.Fml.{ftrue};

    ghost after = { λ names about answer. ftrue };
}

/// A step that adds an operation.
pub struct Add;

impl<O> Play<O, u64> for Add {
    ghost use Rattle.desk_history.specs.Rules.{AddsOperation};

    ghost then = { AddsOperation };
}

/// What a step asks for: the operation.
impl<O> Plain<O, O, u64> for Add {
    ghost use Rattle.std.specs.Prelude.{None};

    ghost ask = { λ op. op };

    ghost state = { λ op. None };
}

/// Which book it is. Each call of a program picks it.
pub trait Naming {
    ghost use Rattle.logbook.specs.Pages.{Book};

    ghost book: { Book };
}

impl Naming for Brand {
    ghost book = { record { number = 0; log_name = 0; cells_name = 0 } };
}

/// A book with an empty history, which has no name yet.
pub struct Opened<O> {
    head: Word<O, u64, Law>,
    seen: Seen<O, u64, Law>,
    pub ghost empty: { seen.log ≡ [] },
    pub ghost head_is: { head ≡ head_of seen.book },
}

impl<O> Opened<O> {
    /// A new book.
    pub fn new() -> Opened<O> {
        let (seen, mut first, _second) = Seen::open(Start::alone(), 0, 0);
        Opened {
            head: Word::tracked(0, &mut first),
            seen,
        }
    }

    /// The book's word under a name, and the front that has seen nothing.
    pub fn named<J: Naming, L: Operations<Op = O>>(self) -> (Book<J, L>, Front<J, L>)
        requires { self.seen.book ≡ J.book }
        ensures { result.1 ≡ [] }
    {
        let Opened { head, seen } = self;
        let book = Book {
            head,
            of: PhantomData,
        };
        let front = Front {
            count: 0,
            seen,
            of: PhantomData,
        };
        (book, front)
    }
}

/// The word that has the length of the history. Who has it adds to the history.
#[derive(Drop)]
pub struct Book<J: Naming, L: Operations> {
    head: Word<L::Op, u64, Law>,
    of: PhantomData<J>,
    ghost head_is: { head ≡ head_of J.book },
}

/// A beginning of the history that was seen. Contracts see it as its operations.
#[derive(Drop)]
pub struct Front<J: Naming, L: Operations> {
    count: u64,
    seen: Seen<L::Op, u64, Law>,
    of: PhantomData<J>,
}

impl<J: Naming, L: Operations> Model for Front<J, L> {
    ghost use Rattle.std.specs.Prelude.{◌≡◌, List, length};

    ghost Value = { List L.Op };

    ghost view = { λ f. f.seen.log };

    ghost invariant = { λ f. (f.count ≡ length f.seen.log) × (f.seen.book ≡ J.book)
        × L.is_legal f.seen.log };
}

impl<J: Naming, L: Operations> Front<J, L> {
    /// How many operations it has.
    pub fn len(&self) -> u64
        ensures length { result ≡ length self.now }
        ensures legal { L.is_legal self.now }
    {
        self.count
    }

    /// A copy.
    pub fn again(&self) -> Front<J, L>
        ensures { result ≡ self.now }
    {
        Front {
            count: self.count,
            seen: self.seen.again(),
            of: PhantomData,
        }
    }

    /// Whether it begins with all of the other.
    pub fn begins_with(&self, other: &Front<J, L>) -> bool
        ensures length { IsTrue result ↔ (length other.now ≤ length self.now) }
        ensures begins { IsTrue result → IsPrefix other.now self.now }
    {
        let mut both = self.seen.again();
        both.learn(&other.seen);
        other.count <= self.count
    }

    /// Adds an operation to all that was seen. It does not where the history is longer, and then
    /// nothing changes.
    pub fn add(&mut self, book: &Book<J, L>, op: &L::Op) -> bool
        requires room { length self.old < 2 ^ 62 }
        requires follows { L.may_follow self.old op.now }
        ensures { MatchBool result (self.new ≡ self.old ++ op.now ∷ []) (self.new ≡ self.old) }
    {
        let mut seen = self.seen.again();
        let mut offer: Offer<L::Op, u64, Law, Nothing> = seen.plain::<Nothing, L::Op, Add>(op);
        let mut pen = seen.no_pen();
        let count = self.count;
        let found = book
            .head
            .compare_exchange::<Add, Nothing>(count, count + 1, &mut seen, &mut offer, &mut pen);
        if found != count {
            return false;
        }
        self.seen = seen;
        self.count = count + 1;
        true
    }
}
