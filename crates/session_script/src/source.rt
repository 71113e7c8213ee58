//! Where bytes come from.

ghost use Rattle.std.specs.Prelude.{◌≡◌, ◌≢◌, ◌+◌, ◌-◌, ◌<◌, ◌≤◌, ◌^◌, ◌++◌, List, ℕ, Option, Some, OnOk, OnErr, IfOk, IfSome, length, min, take};
ghost use Rattle.std.specs.Io.{ReadsAtMost};
ghost use Rattle.std.specs.Io.KnownBytes.{IsAtEnd, ReadConsumes};
ghost use Rattle.session_script.specs.Calls.{HasCalled};
ghost use Rattle.session_script.specs.declared.source.ReadFault.TheVariants.{Memory};

use std::alloc::{AllocError, Global};
use std::io::Read;

/// A call that failed.
#[derive(Clone, Copy, Debug, PartialEq, Eq)]
pub struct CallFailed;

/// A source of bytes, which counts its calls, and those that failed.
pub trait ByteSource {
    // The bytes that calls will give from here on, where they are known.
    ghost remaining: { Self → Option (List ℕ) };

    // How many calls were made. The count stops at 2^64 - 1.
    ghost calls: { Self → ℕ };

    // How many calls have failed.
    ghost failed_calls: { Self → ℕ };

    /// Reads into the beginning of the buffer and says how many bytes: 0 at the end, or where the
    /// buffer is empty. Errors: the call failed, and nothing was read.
    fn read_some(&mut self, buffer: &mut [u8]) -> Result<usize, CallFailed>
        requires { failed_calls self.old < 2 ^ 64 - 1 }
        ensures bound { ReadsAtMost result buffer.new }
        ensures bytes { ReadConsumes (remaining self.old) (remaining self.new) result buffer.new }
        ensures call { calls self.new ≡ min (calls self.old + 1) (2 ^ 64 - 1) }
        ensures ok { OnOk result (failed_calls self.new ≡ failed_calls self.old) }
        ensures err { OnErr result (failed_calls self.new ≡ failed_calls self.old + 1) };
}

/// A reader of std as a source.
#[derive(Drop)]
pub struct OfRead<R> {
    reader: R,
    calls: u64,
    failed: u64,
}

impl<R: Read> OfRead<R> {
    /// The reader, of which no call was made.
    pub fn new(reader: R) -> Self
        ensures { result ≡ record { reader = reader; calls = 0; failed = 0 } }
    {
        OfRead {
            reader,
            calls: 0,
            failed: 0,
        }
    }
}

impl<R: Read> ByteSource for OfRead<R> {
    ghost remaining = { λ s. R.remaining s.reader };

    ghost calls = { λ s. s.calls };

    ghost failed_calls = { λ s. s.failed };

    fn read_some(&mut self, buffer: &mut [u8]) -> Result<usize, CallFailed> {
        self.calls = self.calls.saturating_add(1);
        match self.reader.read(buffer) {
            Ok(n) => Ok(n),
            Err(_) => {
                self.failed += 1;
                Err(CallFailed)
            }
        }
    }
}

/// Bytes in memory, of which one call fails.
#[derive(Drop)]
pub struct MemorySource<'a> {
    rest: &'a [u8],
    until_failure: Option<u64>,
    calls: u64,
    failed: u64,
}

impl<'a> MemorySource<'a> {
    /// The bytes, where the call of this number, from 0, fails.
    pub fn failing_at(bytes: &'a [u8], call: Option<u64>) -> Self
        ensures { result ≡ record {
          rest = bytes.entry;
          until_failure = call;
          calls = 0;
          failed = 0;
        } }
    {
        MemorySource {
            rest: bytes,
            until_failure: call,
            calls: 0,
            failed: 0,
        }
    }
}

impl<'a> ByteSource for MemorySource<'a> {
    ghost remaining = { λ s. Some s.rest.now };

    ghost calls = { λ s. s.calls };

    ghost failed_calls = { λ s. s.failed };

    fn read_some(&mut self, buffer: &mut [u8]) -> Result<usize, CallFailed> {
        self.calls = self.calls.saturating_add(1);
        if let Some(before) = self.until_failure {
            if before == 0 {
                self.until_failure = None;
                self.failed += 1;
                return Err(CallFailed);
            }
            self.until_failure = Some(before - 1);
        }
        let mut rest = self.rest;
        let given = rest.read(buffer);
        self.rest = rest;
        match given {
            Ok(n) => Ok(n),
            Err(_) => {
                self.failed += 1;
                Err(CallFailed)
            }
        }
    }
}

/// Why not all was read.
#[derive(Clone, Copy, Debug, PartialEq, Eq)]
pub enum ReadFault {
    /// A call failed.
    Read,
    /// The source did not end.
    Endless,
    /// A growth was refused.
    Memory,
}

impl From<AllocError> for ReadFault {
    ghost from_gives = { λ _ e. e ≡ Memory };

    fn from(_e: AllocError) -> ReadFault {
        ReadFault::Memory
    }
}

/// How often a source is asked for bytes at most, until it ends.
pub const MAX_TURNS: u32 = 16_777_216;

// The first `most` of these bytes and those behind them.
pub(crate) fn put_prefix(bytes: &mut Vec<u8>, more: &[u8], most: usize) -> Result<(), AllocError>
    requires { length bytes.old.items ≤ most }
    ensures { OnOk result (bytes.new.items ≡ take most (bytes.old.items ++ more.now)) }
{
    let room = most - bytes.len();
    let count = more.len().min(room);
    bytes.extend_from_slice(&more[..count])
}

/// The first `most` bytes of a source, which is read to its end; the others are not kept. Errors: a
/// call that failed, a source that has not ended after 16,777,216 calls, or want of memory.
pub fn read_prefix<S: ByteSource>(
    alloc: Global,
    source: &mut S,
    most: usize,
) -> Result<Vec<u8>, ReadFault>
    requires { S.failed_calls source.old < 2 ^ 64 - 1 }
    ensures bytes { IfOk result (λ v.
        IfSome (S.remaining source.old) (λ all. v.items ≡ take most all)) }
    ensures end { OnOk result (IsAtEnd (S.remaining source.new)) }
    // `Read` comes after one failed call, and all else after none.
    ensures read { result ≡ Err ReadFault.Read
        → S.failed_calls source.new ≡ S.failed_calls source.old + 1 }
    ensures same { result ≢ Err ReadFault.Read
        → S.failed_calls source.new ≡ S.failed_calls source.old }
    // `Endless` comes only after so many calls, each of which gave a byte at least.
    ensures called { result ≡ Err ReadFault.Endless
        → HasCalled 16777216 (S.calls source.old) (S.calls source.new) }
    ensures endless { result ≡ Err ReadFault.Endless
        → IfSome (S.remaining source.old) (λ all. 16777216 ≤ length all) }
{
    let mut bytes = Vec::new(alloc);
    let mut buffer = [0u8; 4096];
    for _turn in 0..MAX_TURNS {
        match source.read_some(&mut buffer) {
            Ok(0) => return Ok(bytes),
            Ok(n) => put_prefix(&mut bytes, &buffer[..n], most)?,
            Err(_) => return Err(ReadFault::Read),
        }
    }
    Err(ReadFault::Endless)
}
