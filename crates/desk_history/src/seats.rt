//! The viewers that are left to give.

ghost use Rattle.std.specs.Prelude.{◌≡◌, ◌+◌, [], IfOk, IfSome, IfNone, drop as without, vec_len};

use crate::book::{Front, Naming, Opened};
use crate::operations::Operations;
use crate::plate::{Entry, Plate};
use crate::press::Press;
use crate::viewer::Viewer;
use crossbeam_utils::rule::Unruled;
use left_right::Absorb;
use left_right::reader::Reader;
use left_right::writer::Writer;
use std::alloc::{AllocError, Global};
use std::marker::Model;
use std::mem::drop;
use std::sync::Wait;
use thiserror::Error;

/// How many viewers there are.
pub const SEATS: usize = 32;

/// Why no press is opened.
#[derive(Debug, Drop, Error)]
pub enum OpenFault {
    /// A growth was refused.
    #[error("out of memory")]
    OutOfMemory,
    /// No reader is left to give: the kit found no free slot for one, or it has more owners than it
    /// can count.
    #[error("no reader is left")]
    NoSeat,
}

/// The viewers that are left to give. Contracts see how many they are.
#[derive(Drop)]
pub struct Seats<J: Naming, L: Operations> {
    readers: Vec<Reader<Plate<J, L>, (), Unruled>>,
    // Of no operation, for a viewer that has seen nothing.
    none: Front<J, L>,
}

impl<J: Naming, L: Operations> Model for Seats<J, L> {
    ghost use Rattle.std.specs.Prelude.{◌≡◌, [], ℕ, vec_len};

    ghost Value = { ℕ };

    ghost view = { λ s. vec_len s.readers };

    ghost invariant = { λ s. s.none ≡ [] };
}

impl<J: Naming, L: Operations> Seats<J, L> {
    /// One of the viewers, which is not given again. It has seen nothing.
    pub fn give(&mut self) -> Option<Viewer<J, L>>
        ensures given { IfSome result (λ v. (v ≡ []) × (self.new + 1 ≡ self.old)) }
        ensures none { IfNone result ((self.old ≡ 0) × (self.new ≡ 0)) }
    {
        let reader = self.readers.pop()?;
        Some(Viewer::new(reader, self.none.again()))
    }
}

/// A press, and its viewers.
pub struct Opening<J: Naming, L: Operations>
where
    Plate<J, L>: Absorb<Entry<J, L>, State = [L::Op; 0]>,
{
    /// The press.
    pub press: Press<J, L>,
    /// The viewers.
    pub seats: Seats<J, L>,
}

// The readers of a writer. It answers that no reader is left wherever the kit refuses one.
fn readers<J: Naming, L: Operations>(
    alloc: Global,
    writer: &Writer<Plate<J, L>, Entry<J, L>, (), Unruled>,
) -> Result<Vec<Reader<Plate<J, L>, (), Unruled>>, OpenFault>
    ensures { IfOk result (λ v. vec_len v ≡ SEATS) }
{
    let mut readers = Vec::new(alloc);
    for _ in 0..SEATS {
        let Ok(reader) = writer.factory().reader() else {
            return Err(OpenFault::NoSeat);
        };
        if readers.push(reader).is_err() {
            return Err(OpenFault::OutOfMemory);
        }
    }
    Ok(readers)
}

// The writer of two boards that show nothing.
fn writer<J: Naming, L: Operations>(
    alloc: Global,
    none: &Front<J, L>,
) -> Result<Writer<Plate<J, L>, Entry<J, L>, (), Unruled>, AllocError>
    requires { none.now ≡ [] }
    ensures { IfOk result (λ w. (w.desk.shown.value ≡ []) × (without w.behind w.log.items ≡ [])) }
{
    let first = Plate::new(alloc, none.again());
    let second = Plate::new(alloc, none.again());
    Writer::new(alloc, first, second, SEATS)
}

/// A press whose boards show nothing, over a book that was opened. It waits for nobody who reads.
/// Errors: want of memory, and `NoSeat` where the kit refuses one of the readers.
pub fn open<J: Naming, L: Operations, R: Wait>(
    rt: &R,
    alloc: Global,
    seed: Opened<L::Op>,
) -> Result<Opening<J, L>, OpenFault>
    requires { seed.seen.book ≡ J.book }
    ensures all { IfOk result (λ o. o.press.all ≡ []) }
    ensures published { IfOk result (λ o. o.press.published ≡ []) }
    ensures seats { IfOk result (λ o. o.seats ≡ SEATS) }
{
    let (book, none) = seed.named::<J, L>();
    let Ok(writer) = writer(alloc, &none) else {
        return Err(OpenFault::OutOfMemory);
    };
    let readers = match readers(alloc, &writer) {
        Ok(readers) => readers,
        Err(fault) => {
            drop(writer.take(rt));
            return Err(fault);
        }
    };
    let mirror = Plate::new(alloc, none.again());
    let press = Press::new(alloc, book, none.again(), mirror, writer);
    let seats = Seats { readers, none };
    Ok(Opening { press, seats })
}
