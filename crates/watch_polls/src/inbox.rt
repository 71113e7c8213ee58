//! What a thread reads of an input, for another that waits no longer than it wants to.

ghost use Rattle.std.specs.Prelude.{◌≤◌, length};
ghost use Rattle.watch_polls.specs.Taken.{IsTakenWithin};

use std::alloc::{AllocError, Global};
use std::io::Read;
use std::mem::drop;
use std::sync::{Condvar, Mutex, Wait};
use std::time::{Clock, Duration};

// So many bytes are read at once.
const MOST_BYTES: usize = 4096;

/// What was taken.
#[derive(Clone, Copy)]
pub(crate) enum Taken {
    /// So many bytes, one at least.
    Bytes(usize),
    /// Nothing came.
    Nothing,
    /// The input has ended.
    End,
    /// A read failed.
    Failed,
}

// How an input ended.
#[derive(Clone, Copy)]
enum InputEnd {
    // All of it was read.
    Whole,
    // A read failed.
    Failed,
}

// Bytes that nobody has taken, from the start on, and whether more may come.
#[derive(Drop)]
struct Received {
    bytes: Vec<u8>,
    end: Option<InputEnd>,
}

/// The bytes that a thread has read and nobody has taken, no more than one read gives.
#[derive(Drop)]
pub(crate) struct Inbox {
    received: Mutex<Received>,
    change: Condvar,
}

// Takes bytes, as many as fit.
fn take_bytes(bytes: &mut Vec<u8>, buffer: &mut [u8]) -> usize
    ensures { result ≤ length buffer.new }
{
    let count = bytes.len().min(buffer.len());
    buffer[..count].copy_from_slice(&bytes[..count]);
    bytes.drain(..count);
    count
}

fn take_received(received: &mut Received, buffer: &mut [u8]) -> Taken
    ensures { IsTakenWithin (length buffer.new) result }
{
    if !received.bytes.is_empty() {
        return Taken::Bytes(take_bytes(&mut received.bytes, buffer));
    }
    match received.end {
        Some(InputEnd::Whole) => Taken::End,
        Some(InputEnd::Failed) => Taken::Failed,
        None => Taken::Nothing,
    }
}

fn is_quiet(received: &Received) -> bool {
    received.bytes.is_empty() && received.end.is_none()
}

impl Inbox {
    /// Nothing is read yet. Errors: out of memory.
    pub(crate) fn new(alloc: Global) -> Result<Inbox, AllocError> {
        Ok(Inbox {
            received: Mutex::new(Received {
                bytes: Vec::with_capacity(alloc, MOST_BYTES)?,
                end: None,
            }),
            change: Condvar::new(),
        })
    }

    /// Takes bytes, or waits for some no longer than this.
    pub(crate) fn take<R: Wait + Clock>(&self, rt: &R, buffer: &mut [u8], most: Duration) -> Taken
        ensures { IsTakenWithin (length buffer.new) result }
    {
        let mut received = self.received.lock(rt);
        if is_quiet(&received) {
            received = self.change.wait_timeout(rt, received, most).0;
        }
        let took = take_received(&mut received, buffer);
        drop(received);
        self.change.notify_all();
        took
    }

    // Puts bytes in once those before are taken. Whether they fit.
    fn put<R: Wait>(&self, rt: &R, bytes: &[u8]) -> bool {
        for _ in rt.forever() {
            let mut received = self.received.lock(rt);
            if received.bytes.is_empty() {
                let fits = received.bytes.extend_from_slice(bytes).is_ok();
                drop(received);
                self.change.notify_all();
                return fits;
            }
            drop(self.change.wait(rt, received));
        }
        unreachable!()
    }

    fn end<R: Wait>(&self, rt: &R, end: InputEnd) {
        let mut received = self.received.lock(rt);
        received.end = Some(end);
        drop(received);
        self.change.notify_all();
    }

    /// Reads an input to its end.
    pub(crate) fn read_all<R: Wait, I: Read>(&self, rt: &R, input: &mut I) {
        let mut buffer = [0u8; MOST_BYTES];
        for _ in rt.forever() {
            match input.read(&mut buffer) {
                Ok(0) => return self.end(rt, InputEnd::Whole),
                Ok(count) => {
                    if !self.put(rt, &buffer[..count]) {
                        return self.end(rt, InputEnd::Failed);
                    }
                }
                Err(_) => return self.end(rt, InputEnd::Failed),
            }
        }
    }
}
