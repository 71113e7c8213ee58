//! A source that does not end, and how runs from sources end.

ghost use Rattle.std.specs.Prelude.{None};

use command_line::SessionFault;
use session_script::{ByteSource, CallFailed};

/// A source that gives one byte at each call, and does not end.
#[derive(Clone, Copy)]
pub struct Endless {
    calls: u64,
}

impl Endless {
    /// No call was made.
    pub fn new() -> Endless {
        Endless { calls: 0 }
    }
}

impl ByteSource for Endless {
    ghost remaining = { λ _. None };

    ghost calls = { λ s. s.calls };

    ghost failed_calls = { λ _. 0 };

    fn read_some(&mut self, buffer: &mut [u8]) -> Result<usize, CallFailed> {
        self.calls = self.calls.saturating_add(1);
        if buffer.is_empty() {
            return Ok(0);
        }
        buffer[0] = b' ';
        Ok(1)
    }
}

/// How a run ended.
pub fn word_of(answer: Result<bool, SessionFault>) -> &'static str {
    match answer {
        Ok(false) => "done",
        Ok(true) => "refused",
        Err(SessionFault::Read) => "no read",
        Err(SessionFault::Write) => "no write",
        Err(SessionFault::Memory) => "no memory",
        Err(SessionFault::Shared) => "shared",
    }
}
