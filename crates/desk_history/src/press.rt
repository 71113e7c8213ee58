//! The operations that were appended, and the writer that shows them to readers.

ghost use Rattle.std.specs.Prelude.{◌≡◌, ◌∷◌, ◌++◌, [], drop as without, fold, IsTrue, IsFalse, IfSome, MatchBool, MatchResult};
ghost use mathlib.Core.List.{IsPrefix};
ghost use Rattle.desk_history.specs.Histories.{latest};

use crate::book::{Book, Front, Naming};
use crate::operations::Operations;
use crate::plate::{Entry, Plate};
use core::mem::replace_with;
use crossbeam_utils::rule::Unruled;
use left_right::Absorb;
use left_right::writer::Writer;
use std::alloc::{AllocError, Global};
use std::collections::VecDeque;
use std::marker::Model;
use std::mem::drop;
use std::sync::Wait;

/// No more operations than these are appended.
const MOST: u64 = 1 << 62;

/// Readers see what its writer published last. Contracts see the operations that were appended, and
/// those that are published. It is not `Drop`: it ends by `close`, which waits for the readers.
pub struct Press<J: Naming, L: Operations>
where
    Plate<J, L>: Absorb<Entry<J, L>, State = [L::Op; 0]>,
{
    book: Book<J, L>,
    front: Front<J, L>,
    // The board after all operations, as soon as there was memory for it.
    mirror: Plate<J, L>,
    // What the writer lacks.
    queue: VecDeque<Entry<J, L>>,
    writer: Writer<Plate<J, L>, Entry<J, L>, (), Unruled>,
}

impl<J: Naming, L: Operations> Model for Press<J, L>
where
    Plate<J, L>: Absorb<Entry<J, L>, State = [L::Op; 0]>,
{
    ghost use Rattle.std.specs.Prelude.{◌≡◌, ◌++◌, drop as without};
    ghost use mathlib.Core.List.{IsPrefix};
    ghost use Rattle.desk_history.specs.Histories.{Pressed, latest};

    ghost Value = { Pressed L.Op };

    ghost view = { λ p. record { all = p.front; published = p.writer.desk.shown.value } };

    ghost invariant = { λ p. (latest p.writer.desk.shown.value (without p.writer.behind
        p.writer.log.items ++ p.queue.items) ≡ p.front)
        × IsPrefix p.writer.desk.shown.value p.front };
}

// Brings a board up to the history, as far as memory allows.
fn bring_up<J: Naming, L: Operations>(mirror: &mut Plate<J, L>, queue: &VecDeque<Entry<J, L>>) {
    for entry in queue.iter() {
        if entry.front().len() <= mirror.front().len() {
            continue;
        }
        if mirror.take_in(entry).is_err() {
            return;
        }
    }
}

// Hands the operations that wait to the writer. True if none is left.
fn hand_over<J: Naming, L: Operations>(
    queue: &mut VecDeque<Entry<J, L>>,
    writer: &mut Writer<Plate<J, L>, Entry<J, L>, (), Unruled>,
) -> bool
    ensures desk { writer.new.desk ≡ writer.old.desk }
    ensures waits { without writer.new.behind writer.new.log.items ++ queue.new.items
        ≡ without writer.old.behind writer.old.log.items ++ queue.old.items }
    ensures done { IsTrue result → queue.new.items ≡ [] }
{
    while let Some(entry) = queue.pop_front() {
        if let Err(entry) = writer.append(entry) {
            queue.push_front_reserved(entry);
            return false;
        }
    }
    true
}

// Shows readers a copy that has all that the writer was handed.
fn turn<J: Naming, L: Operations, R: Wait>(
    writer: Writer<Plate<J, L>, Entry<J, L>, (), Unruled>,
    rt: &R,
) -> (Writer<Plate<J, L>, Entry<J, L>, (), Unruled>, bool)
    ensures { MatchBool result.1
        ((result.0.desk.shown.value
        ≡ latest writer.desk.shown.value (without writer.behind writer.log.items))
        × (without result.0.behind result.0.log.items ≡ []))
        ((result.0.desk.shown.value ≡ writer.desk.shown.value)
        × (without result.0.behind result.0.log.items
        ≡ without writer.behind writer.log.items)) }
{
    let (writer, published) = writer.publish_as::<Unruled, R>(rt);
    (writer, published.is_ok())
}

impl<J: Naming, L: Operations> Press<J, L> {
    /// A press without operations.
    pub(crate) fn new(
        alloc: Global,
        book: Book<J, L>,
        front: Front<J, L>,
        mirror: Plate<J, L>,
        writer: Writer<Plate<J, L>, Entry<J, L>, (), Unruled>,
    ) -> Press<J, L>
        requires front { front ≡ [] }
        requires writer { (writer.desk.shown.value ≡ [])
            × (without writer.behind writer.log.items ≡ []) }
        ensures { result ≡ record { all = []; published = [] } }
    {
        Press {
            book,
            front,
            mirror,
            queue: VecDeque::new(alloc),
            writer,
        }
    }

    /// The operations that were appended.
    pub fn front(&self) -> &Front<J, L>
        ensures front { result.now ≡ self.now.all }
        ensures legal { L.is_legal self.now.all }
        ensures begins { IsPrefix self.now.published self.now.all }
    {
        let _count = self.front.len();
        &self.front
    }

    /// The board after all operations. None where memory for it was refused.
    pub fn board(&self) -> Option<&L::Board>
        ensures { IfSome result (λ b. b.now ≡ fold L.after L.none self.now.all) }
    {
        let front = self.mirror.front();
        if self.front.begins_with(front) && front.begins_with(&self.front) {
            Some(self.mirror.board())
        } else {
            None
        }
    }

    /// Brings the board up to all operations, where memory for it was refused before, as far as it
    /// is given now.
    pub fn catch_up(&mut self)
        ensures { self.new ≡ self.old }
    {
        bring_up(&mut self.mirror, &self.queue);
    }

    /// Appends an operation. Errors: want of memory, and then nothing changes.
    pub fn append(&mut self, op: L::Op) -> Result<(), AllocError>
        requires { L.may_follow self.old.all op }
        ensures published { self.new.published ≡ self.old.published }
        ensures all { MatchResult result (λ _. self.new.all ≡ self.old.all ++ op ∷ [])
            (λ _. self.new.all ≡ self.old.all) }
    {
        if self.front.len() >= MOST {
            return Err(AllocError);
        }
        self.queue.reserve(1)?;
        let mut longer = self.front.again();
        if !longer.add(&self.book, &op) {
            return Err(AllocError);
        }
        let entry = Entry::new(op, longer.again());
        self.queue.push_back_reserved(entry);
        self.front = longer;
        self.catch_up();
        Ok(())
    }

    /// Whether readers may lack an operation. It is false only where they see all.
    pub fn is_pending(&self) -> bool
        ensures { IsFalse result → self.now.published ≡ self.now.all }
    {
        !self.queue.is_empty() || self.writer.has_pending_operations()
    }

    /// Shows readers all operations, at once. It waits for those that read the older copy. False
    /// where memory is refused: readers see what they saw.
    pub fn publish<R: Wait>(&mut self, rt: &R) -> bool
        ensures all { self.new.all ≡ self.old.all }
        ensures published { MatchBool result (self.new.published ≡ self.old.all)
            (self.new.published ≡ self.old.published) }
    {
        if !self.is_pending() {
            return true;
        }
        self.catch_up();
        if self.board().is_none() || !hand_over(&mut self.queue, &mut self.writer) {
            return false;
        }
        replace_with(&mut self.writer, rt, turn)
    }

    /// Waits for the readers, and ends.
    pub fn close<R: Wait>(self, rt: &R) {
        let Press {
            book: _,
            front: _,
            mirror: _,
            queue: _,
            writer,
        } = self;
        drop(writer.take(rt));
    }
}
