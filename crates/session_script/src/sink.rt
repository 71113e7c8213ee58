//! Where bytes go.

ghost use Rattle.std.specs.Prelude.{◌≡◌, ◌+◌, ◌-◌, ◌<◌, ◌≤◌, ◌^◌, List, ℕ, Option, Some, OnOk, OnErr, IfOk, length};
ghost use Rattle.std.specs.Io.KnownBytes.{Appends, WriteAppends};
ghost use Rattle.session_script.specs.Written.{WritesPrefix};

use crate::source::CallFailed;
use std::io::Write;

/// A sink of bytes, which counts its failed calls.
pub trait ByteSink {
    // The bytes that it holds, where they are known.
    ghost contents: { Self → Option (List ℕ) };

    // How many calls have failed.
    ghost failed_calls: { Self → ℕ };

    /// Writes a prefix of the bytes, of at least one, and says how many. Errors: the call failed,
    /// and nothing was written.
    fn write_some(&mut self, bytes: &[u8]) -> Result<usize, CallFailed>
        requires room { failed_calls self.old < 2 ^ 64 - 1 }
        requires some { 0 < length bytes.now }
        ensures bound { IfOk result (λ n. (0 < n) × (n ≤ length bytes.now)) }
        ensures bytes { WriteAppends (contents self.old) (contents self.new) result bytes.now }
        ensures ok { OnOk result (failed_calls self.new ≡ failed_calls self.old) }
        ensures err { OnErr result (failed_calls self.new ≡ failed_calls self.old + 1) };
}

/// A writer of std as a sink.
#[derive(Drop)]
pub struct OfWrite<W> {
    writer: W,
    failed: u64,
}

impl<W: Write> OfWrite<W> {
    /// The writer, of which no call has failed.
    pub fn new(writer: W) -> Self
        ensures { result ≡ record { writer = writer; failed = 0 } }
    {
        OfWrite { writer, failed: 0 }
    }
}

impl<W: Write> ByteSink for OfWrite<W> {
    ghost contents = { λ s. W.contents s.writer };

    ghost failed_calls = { λ s. s.failed };

    fn write_some(&mut self, bytes: &[u8]) -> Result<usize, CallFailed> {
        match self.writer.write(bytes) {
            Ok(0) | Err(_) => {
                self.failed += 1;
                Err(CallFailed)
            }
            Ok(n) => Ok(n),
        }
    }
}

/// Bytes in memory, of which one call fails.
#[derive(Drop)]
pub struct MemorySink {
    bytes: Vec<u8>,
    until_failure: Option<u64>,
    failed: u64,
}

impl MemorySink {
    /// A sink that holds these bytes, where the call of this number, from 0, fails.
    pub fn failing_at(bytes: Vec<u8>, call: Option<u64>) -> Self
        ensures { result ≡ record { bytes = bytes; until_failure = call; failed = 0 } }
    {
        MemorySink {
            bytes,
            until_failure: call,
            failed: 0,
        }
    }

    /// What it holds.
    pub fn as_bytes(&self) -> &[u8]
        ensures { result.now ≡ self.now.bytes.items }
    {
        &self.bytes
    }
}

impl ByteSink for MemorySink {
    ghost contents = { λ s. Some s.bytes.items };

    ghost failed_calls = { λ s. s.failed };

    fn write_some(&mut self, bytes: &[u8]) -> Result<usize, CallFailed> {
        if let Some(calls) = self.until_failure {
            if calls == 0 {
                self.until_failure = None;
                self.failed += 1;
                return Err(CallFailed);
            }
            self.until_failure = Some(calls - 1);
        }
        match self.bytes.extend_from_slice(bytes) {
            Ok(()) => Ok(bytes.len()),
            Err(_) => {
                self.failed += 1;
                Err(CallFailed)
            }
        }
    }
}

/// Writes all the bytes. After an `Err` the sink holds a prefix of them.
pub fn write_whole<S: ByteSink>(sink: &mut S, bytes: &[u8]) -> Result<(), CallFailed>
    requires { S.failed_calls sink.old < 2 ^ 64 - 1 }
    ensures ok { OnOk result (Appends (S.contents sink.old) (S.contents sink.new) bytes.now) }
    ensures prefix { WritesPrefix (S.contents sink.old) (S.contents sink.new) bytes.now }
    ensures err { OnErr result (S.failed_calls sink.new ≡ S.failed_calls sink.old + 1) }
    ensures same { OnOk result (S.failed_calls sink.new ≡ S.failed_calls sink.old) }
{
    let mut at = 0;
    while at < bytes.len() {
        match sink.write_some(&bytes[at..]) {
            Ok(n) => at += n,
            Err(e) => return Err(e),
        }
    }
    Ok(())
}
