//! What readers see: a board beside the operations that made it.

ghost use Rattle.std.specs.Prelude.{◌≡◌, ◌∷◌, ◌++◌, [], List, MatchResult};

use crate::book::{Front, Naming};
use crate::operations::Operations;
use left_right::Absorb;
use std::alloc::{AllocError, Global};
use std::marker::Model;

/// An operation, beside the history that ends with it. Contracts see it as that history.
#[derive(Drop)]
pub struct Entry<J: Naming, L: Operations> {
    op: L::Op,
    front: Front<J, L>,
}

impl<J: Naming, L: Operations> Model for Entry<J, L> {
    ghost use Rattle.std.specs.Prelude.{◌≡◌, List, [], ◌∷◌, ◌++◌};

    ghost Value = { List L.Op };

    ghost view = { λ p. p.front };

    ghost invariant = { λ p. (before : List L.Op) × (p.front ≡ before ++ p.op ∷ []) };
}

impl<J: Naming, L: Operations> Entry<J, L> {
    /// The last operation of a history, beside that history.
    pub fn new(op: L::Op, front: Front<J, L>) -> Entry<J, L>
        requires { (before : List L.Op) × (front ≡ before ++ op ∷ []) }
        ensures { result ≡ front }
    {
        Entry { op, front }
    }

    /// The history that ends with it.
    pub(crate) fn front(&self) -> &Front<J, L>
        ensures { result.now ≡ self.now }
    {
        &self.front
    }
}

/// A board, beside the operations that made it. Contracts see it as these operations.
#[derive(Drop)]
pub struct Plate<J: Naming, L: Operations> {
    board: L::Board,
    front: Front<J, L>,
    alloc: Global,
}

impl<J: Naming, L: Operations> Model for Plate<J, L> {
    ghost use Rattle.std.specs.Prelude.{◌≡◌, List, fold};

    ghost Value = { List L.Op };

    ghost view = { λ b. b.front };

    ghost invariant = { λ b. b.board ≡ fold L.after L.none b.front };
}

impl<J: Naming, L: Operations> Plate<J, L> {
    ghost use Rattle.std.specs.Prelude.{fold};

    /// A board that shows nothing, beside no operations.
    pub fn new(alloc: Global, front: Front<J, L>) -> Plate<J, L>
        requires { front ≡ [] }
        ensures { result ≡ [] }
    {
        Plate {
            board: L::blank(alloc),
            front,
            alloc,
        }
    }

    /// The operations that made it.
    pub fn front(&self) -> &Front<J, L>
        ensures { result.now ≡ self.now }
    {
        &self.front
    }

    /// The board.
    pub fn board(&self) -> &L::Board
        ensures { result.now ≡ fold L.after L.none self.now }
    {
        &self.board
    }

    /// Takes in one operation after those that it has. Errors: want of memory, and then nothing
    /// changes.
    pub(crate) fn take_in(&mut self, entry: &Entry<J, L>) -> Result<(), AllocError>
        ensures { MatchResult result (λ _. self.new ≡ entry.now) (λ _. self.new ≡ self.old) }
    {
        let front = &entry.front;
        if !front.begins_with(&self.front) || front.len() - self.front.len() != 1 {
            return Err(AllocError);
        }
        L::apply(self.alloc, &mut self.board, &entry.op)?;
        self.front = front.again();
        Ok(())
    }
}

impl<J: Naming, L: Operations> Absorb<Entry<J, L>> for Plate<J, L> {
    // A clause reads an array as a list, of any length.
    type State = [L::Op; 0];

    ghost state = { λ b. b };

    ghost applied = { λ ops entry. entry };

    fn absorb_first(
        &mut self,
        operation: &Entry<J, L>,
        _other: &Plate<J, L>,
    ) -> Result<(), AllocError> {
        self.take_in(operation)
    }
}
