//! Those who read the board. They wait for nobody and take no memory.

ghost use Rattle.std.specs.Prelude.{◌≡◌, ◌↔◌, ◌≤◌, fold, length, IsTrue, IfOk, IfErr};
ghost use mathlib.Core.List.{IsPrefix};

use crate::book::{Front, Naming};
use crate::operations::Operations;
use crate::plate::Plate;
use crossbeam_utils::rule::Unruled;
use left_right::reader::{Reader, Reading};
use std::marker::Model;

/// Contracts see it as the operations that it has seen or was told.
#[derive(Drop)]
pub struct Viewer<J: Naming, L: Operations> {
    reader: Reader<Plate<J, L>, (), Unruled>,
    front: Front<J, L>,
}

impl<J: Naming, L: Operations> Model for Viewer<J, L> {
    ghost use Rattle.std.specs.Prelude.{List};

    ghost Value = { List L.Op };

    ghost view = { λ v. v.front };
}

/// A viewer that holds the board which was published last. Contracts see it as the operations that
/// made that board. It is not `Drop`: it ends by `leave`. A view that is held makes publishing wait
/// until it is left. So whoever holds one must not publish, as each call of a desk may: such a call
/// would not return.
pub struct View<J: Naming, L: Operations> {
    reading: Reading<Plate<J, L>, (), Unruled>,
    front: Front<J, L>,
}

impl<J: Naming, L: Operations> Model for View<J, L> {
    ghost use Rattle.std.specs.Prelude.{◌≡◌, List};

    ghost Value = { List L.Op };

    ghost view = { λ v. v.front };

    ghost invariant = { λ v. v.reading.part.value ≡ v.front };
}

impl<J: Naming, L: Operations> Viewer<J, L> {
    /// A viewer by this reader, which has seen these operations.
    pub(crate) fn new(reader: Reader<Plate<J, L>, (), Unruled>, front: Front<J, L>) -> Viewer<J, L>
        ensures { result ≡ front }
    {
        Viewer { reader, front }
    }

    /// Whether these operations begin with all that it has seen or was told.
    pub fn is_behind(&self, front: &Front<J, L>) -> bool
        ensures length { IsTrue result ↔ (length self.now ≤ length front.now) }
        ensures begins { IsTrue result → IsPrefix self.now front.now }
    {
        front.begins_with(&self.front)
    }

    /// Lets it know these operations, where they go on from what it knows; else it keeps what it
    /// knows.
    pub fn tell(&mut self, front: &Front<J, L>)
        ensures told { IsPrefix self.old front.now → self.new ≡ front.now }
        ensures kept { (IsPrefix self.old front.now → ⊥) → self.new ≡ self.old }
        ensures begins { IsPrefix self.old self.new }
    {
        if front.begins_with(&self.front) {
            self.front = front.again();
        }
    }

    /// Takes the board that was published last. It takes no memory and waits for nobody. The viewer
    /// comes back where there is no board that goes on from its operations.
    pub fn read(self) -> Result<View<J, L>, Viewer<J, L>>
        ensures ok { IfOk result (λ v. IsPrefix self v × L.is_legal v) }
        ensures err { IfErr result (λ v. v ≡ self) }
    {
        let Viewer { reader, front } = self;
        match reader.enter_as::<Unruled>() {
            Ok(reading) => {
                let shown = reading.get().front();
                if !shown.begins_with(&front) {
                    return Err(Viewer {
                        reader: reading.leave(),
                        front,
                    });
                }
                let front = shown.again();
                Ok(View { reading, front })
            }
            Err(reader) => Err(Viewer { reader, front }),
        }
    }
}

impl<J: Naming, L: Operations> View<J, L> {
    /// The board.
    pub fn board(&self) -> &L::Board
        ensures { result.now ≡ fold L.after L.none self.now }
    {
        self.reading.get().board()
    }

    /// The viewer, which has seen the operations of the board.
    pub fn leave(self) -> Viewer<J, L>
        ensures { result ≡ self }
    {
        let View { reading, front } = self;
        Viewer {
            reader: reading.leave(),
            front,
        }
    }
}
