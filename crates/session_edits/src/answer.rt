//! What a session says to a command.

use session_script::{ByteSink, CallFailed, write_whole};
use std::alloc::{AllocError, Global};
use std::marker::Model;

/// What a session says to a command: bytes, and whether the command is refused.
#[derive(Debug, Drop)]
pub struct Answer {
    text: Vec<u8>,
    is_refused: bool,
}

impl Model for Answer {
    ghost use Rattle.session_edits.specs.Answer.{SessionAnswer};

    ghost Value = { SessionAnswer };

    ghost view = { λ a. record { text = a.text.items; refused = a.is_refused } };
}

impl Answer {
    ghost use Rattle.std.specs.Prelude.{◌≡◌, ◌+◌, ◌-◌, ◌<◌, ◌^◌, IfOk, OnOk, OnErr, codes};
    ghost use Rattle.std.specs.Io.KnownBytes.{Appends};
    ghost use Rattle.session_script.specs.Written.{WritesPrefix};
    ghost use Rattle.session_edits.specs.Answer.{plain_answer, refusal_answer};

    /// An answer that is no refusal.
    pub fn plain(text: Vec<u8>) -> Answer
        ensures { result ≡ plain_answer text.items }
    {
        Answer {
            text,
            is_refused: false,
        }
    }

    /// The text of a refusal.
    pub fn refusal(text: Vec<u8>) -> Answer
        ensures { result ≡ refusal_answer text.items }
    {
        Answer {
            text,
            is_refused: true,
        }
    }

    /// The answer to an edit that is accepted. Errors: out of memory.
    pub fn accepted(alloc: Global) -> Result<Answer, AllocError>
        ensures { IfOk result (λ a. a ≡ plain_answer (codes "ok\n")) }
    {
        Ok(Answer::plain(Vec::from_slice(alloc, b"ok\n")?))
    }

    /// Its bytes.
    pub fn text(&self) -> &[u8]
        ensures { result.now ≡ self.now.text }
    {
        &self.text
    }

    /// Whether the command is refused.
    pub fn is_refused(&self) -> bool
        ensures { result ≡ self.now.refused }
    {
        self.is_refused
    }

    /// Writes its bytes. After an `Err` the sink holds a front of them.
    pub fn write_to<S: ByteSink>(&self, sink: &mut S) -> Result<(), CallFailed>
        requires { S.failed_calls sink.old < 2 ^ 64 - 1 }
        ensures ok { OnOk result (Appends (S.contents sink.old) (S.contents sink.new)
            self.now.text) }
        ensures front { WritesPrefix (S.contents sink.old) (S.contents sink.new) self.now.text }
        ensures err { OnErr result (S.failed_calls sink.new ≡ S.failed_calls sink.old + 1) }
        ensures same { OnOk result (S.failed_calls sink.new ≡ S.failed_calls sink.old) }
    {
        write_whole(sink, &self.text)
    }
}
