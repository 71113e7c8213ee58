//! The commands of a script, one after another.

ghost use Rattle.std.specs.Prelude.{◌≡◌, ◌≢◌, ◌+◌, ◌-◌, ◌<◌, ◌≤◌, ◌^◌, ◌++◌, ◌∷◌, [], true, false, length, take, IfOk, IfSome, OnOk, option_map};
ghost use Rattle.std.specs.Io.KnownBytes.{Consumes, IsAtEnd};
ghost use Rattle.session_script.specs.Calls.{HasCalled, AreTurnsCalled};
ghost use Rattle.session_script.specs.Commands.{is_dot, skips};
ghost use Rattle.session_script.specs.Lines.{without_return};
ghost use Rattle.session_script.specs.Reading.{waiting_in, left_to, turns_of, work_of, ReadsFewAhead, IsPart, IsPaid, IsNextLine, IsNextText, HasText, IsCommandOfWords, IsNextCommand};

use crate::command::{Command, ScriptRule};
use crate::parse::request_of;
use crate::request::{Request, ScriptText};
use crate::source::{ByteSource, MAX_TURNS, ReadFault, put_prefix};
use crate::state::ScriptReader;
use crate::words::{joined, words_of};
use std::alloc::{AllocError, Global};
use text_values::{byte_at, line_length, put_bytes};

// A text of so many bytes is too long, whatever follows.
const MOST_OF_TEXT: usize = 65_537;

// How much of a line stays without the carriage return right before its line feed.
#[tactic(auto, using(crate::proofs::Broken::none_stays, crate::proofs::Broken::return_goes, crate::proofs::Broken::all_stays))]
fn kept_length(line: &[u8]) -> usize
    ensures { take result line.now ≡ without_return line.now }
{
    let length = line.len();
    if length == 0 {
        return 0;
    }
    if line[length - 1] == b'\r' {
        return length - 1;
    }
    length
}

// Drops the carriage return right before a line feed.
fn drop_return(line: &mut Vec<u8>)
    ensures { line.new.items ≡ without_return line.old.items }
{
    let length = kept_length(line);
    line.truncate(length);
}

// Whether a line is the full stop that ends a text.
fn is_dot(line: &[u8]) -> bool
    ensures { result ≡ is_dot line.now }
{
    line == b".".as_slice()
}

// Whether a line with these words says nothing.
fn skips(line: &[u8], words: &[ScriptText]) -> bool
    ensures { result ≡ skips line.now words.now }
{
    byte_at(line, 0) == b'#' || words.is_empty()
}

// Puts a line of a text behind those before it, as far as the text is kept.
fn put_line(text: &mut Vec<u8>, line: &[u8], most: usize) -> Result<(), AllocError>
    requires { length text.old.items ≤ most }
    ensures { OnOk result (text.new.items ≡ take most (text.old.items ++ line.now ++ 10 ∷ [])) }
{
    put_prefix(text, line, most)?;
    put_prefix(text, b"\n", most)
}

impl ScriptReader {
    /// Nothing is read yet.
    pub fn new(alloc: Global) -> ScriptReader
        ensures waiting { waiting_in result ≡ [] }
        ensures turns { turns_of result ≡ 16777216 }
    {
        ScriptReader {
            alloc,
            waiting: Vec::new(alloc),
            start: 0,
            turns: MAX_TURNS,
            lines: 0,
            command_line: 0,
            command_words: Vec::new(alloc),
        }
    }

    /// The number of the line of the last command, from 1.
    pub fn command_line(&self) -> u64 {
        self.command_line
    }

    /// The words of the last command, with a blank between two.
    pub fn command_words(&self) -> &[u8] {
        &self.command_words
    }

    // Moves what waits of a line to it. Whether the line ends there.
    fn take_part(&mut self, line: &mut Vec<u8>) -> Result<bool, AllocError>
        ensures ahead { OnOk result (ReadsFewAhead self.old self.new) }
        ensures part { IfOk result (λ ended. IsPart ended (waiting_in self.old)
            (waiting_in self.new) line.old.items line.new.items) }
        ensures whole { IfOk result (λ ended. work_of self.new + length line.new.items
            ≤ work_of self.old + length line.old.items) }
        ensures turns { IfOk result (λ ended. turns_of self.new ≡ turns_of self.old) }
        ensures work { IfOk result (λ ended. work_of self.new ≤ work_of self.old) }
        ensures less { result ≡ Ok true → work_of self.new < work_of self.old }
    {
        let start = self.start;
        let part = &self.waiting[start..];
        let length = line_length(part);
        let ends = length < part.len();
        put_bytes(line, &part[..length])?;
        if ends {
            self.start = start + length + 1;
            self.lines = self.lines.saturating_add(1);
            Ok(true)
        } else {
            self.start = start + length;
            Ok(false)
        }
    }

    // These bytes wait, after one more turn.
    fn keep(&mut self, bytes: &[u8]) -> Result<(), AllocError>
        requires { 0 < self.old.turns }
        ensures waiting { OnOk result (waiting_in self.new ≡ bytes.now) }
        ensures turns { OnOk result (self.new.turns + 1 ≡ self.old.turns) }
    {
        self.turns -= 1;
        self.start = 0;
        self.waiting = Vec::from_slice(self.alloc, bytes)?;
        Ok(())
    }

    // The source has ended, and with it a line that lacks its line feed: nothing waits, and no turn
    // is taken.
    fn keep_nothing(&mut self)
        ensures waiting { waiting_in self.new ≡ [] }
        ensures turns { turns_of self.new ≡ turns_of self.old }
    {
        self.start = self.waiting.len();
        self.lines = self.lines.saturating_add(1);
    }

    // Reads once, where nothing waits. Whether something waits then; a read that gives nothing
    // takes no turn.
    fn fill<S: ByteSource>(&mut self, source: &mut S) -> Result<bool, ReadFault>
        requires { S.failed_calls source.old < 2 ^ 64 - 1 }
        ensures ahead { OnOk result (ReadsFewAhead self.old self.new) }
        ensures given { IfOk result (λ some.
            Consumes (S.remaining source.old) (S.remaining source.new) (waiting_in self.new)) }
        ensures end { result ≡ Ok false → IsAtEnd (left_to self.new (S.remaining source.new)) }
        ensures work { IfOk result (λ some. work_of self.new ≤ work_of self.old) }
        ensures less { result ≡ Ok true → work_of self.new < work_of self.old }
        ensures paid { IfOk result (λ some. IsPaid (turns_of self.old) (turns_of self.new)
            (S.remaining source.old) (S.remaining source.new)) }
        ensures called { IfOk result (λ some. AreTurnsCalled (turns_of self.old) (turns_of self.new)
            (S.calls source.old) (S.calls source.new)) }
        ensures endless { result ≡ Err ReadFault.Endless → turns_of self.old ≡ 0 }
        ensures endless_called { result ≡ Err ReadFault.Endless
            → HasCalled (turns_of self.old) (S.calls source.old) (S.calls source.new) }
        ensures read { result ≡ Err ReadFault.Read
            → S.failed_calls source.new ≡ S.failed_calls source.old + 1 }
        ensures same { result ≢ Err ReadFault.Read
            → S.failed_calls source.new ≡ S.failed_calls source.old }
    {
        if self.turns == 0 {
            return Err(ReadFault::Endless);
        }
        let mut buffer = [0u8; 4096];
        match source.read_some(&mut buffer) {
            Ok(0) => {
                self.keep_nothing();
                Ok(false)
            }
            Ok(count) => {
                self.keep(&buffer[..count])?;
                Ok(true)
            }
            Err(_) => Err(ReadFault::Read),
        }
    }

    // The next line, or none at the end. What is read of a line that a failed read cuts off is
    // lost.
    fn read_line<S: ByteSource>(&mut self, source: &mut S) -> Result<Option<Vec<u8>>, ReadFault>
        requires { S.failed_calls source.old < 2 ^ 64 - 1 }
        ensures ahead { OnOk result (ReadsFewAhead self.old self.new) }
        ensures line { IfOk result (λ line. IsNextLine (left_to self.old (S.remaining source.old))
            (left_to self.new (S.remaining source.new)) (option_map (λ l. l.items) line)) }
        ensures work { IfOk result (λ line. work_of self.new ≤ work_of self.old) }
        ensures less { IfOk result (λ line.
            IfSome line (λ some. work_of self.new < work_of self.old)) }
        ensures paid { IfOk result (λ line. IsPaid (turns_of self.old) (turns_of self.new)
            (S.remaining source.old) (S.remaining source.new)) }
        ensures called { IfOk result (λ line. AreTurnsCalled (turns_of self.old) (turns_of self.new)
            (S.calls source.old) (S.calls source.new)) }
        ensures endless_called { result ≡ Err ReadFault.Endless
            → HasCalled (turns_of self.old) (S.calls source.old) (S.calls source.new) }
        ensures endless { result ≡ Err ReadFault.Endless
            → IfSome (S.remaining source.old) (λ all. turns_of self.old ≤ length all) }
        ensures read { result ≡ Err ReadFault.Read
            → S.failed_calls source.new ≡ S.failed_calls source.old + 1 }
        ensures same { result ≢ Err ReadFault.Read
            → S.failed_calls source.new ≡ S.failed_calls source.old }
    {
        let mut line = Vec::new(self.alloc);
        'parts: loop {
            let ends = self.take_part(&mut line)?;
            if ends {
                drop_return(&mut line);
                return Ok(Some(line));
            }
            let more = self.fill(source)?;
            if !more {
                if line.is_empty() {
                    return Ok(None);
                }
                return Ok(Some(line));
            }
        }
    }

    // The text of a request, or none where the script ends before it does.
    fn text<S: ByteSource>(&mut self, source: &mut S) -> Result<Option<ScriptText>, ReadFault>
        requires { S.failed_calls source.old < 2 ^ 64 - 1 }
        ensures ahead { OnOk result (ReadsFewAhead self.old self.new) }
        ensures text { IfOk result (IsNextText (left_to self.old (S.remaining source.old))
            (left_to self.new (S.remaining source.new))) }
        ensures work { IfOk result (λ text. work_of self.new ≤ work_of self.old) }
        ensures less { IfOk result (λ text.
            IfSome text (λ some. work_of self.new < work_of self.old)) }
        ensures paid { IfOk result (λ text. IsPaid (turns_of self.old) (turns_of self.new)
            (S.remaining source.old) (S.remaining source.new)) }
        ensures called { IfOk result (λ text. AreTurnsCalled (turns_of self.old) (turns_of self.new)
            (S.calls source.old) (S.calls source.new)) }
        ensures endless_called { result ≡ Err ReadFault.Endless
            → HasCalled (turns_of self.old) (S.calls source.old) (S.calls source.new) }
        ensures endless { result ≡ Err ReadFault.Endless
            → IfSome (S.remaining source.old) (λ all. turns_of self.old ≤ length all) }
        ensures read { result ≡ Err ReadFault.Read
            → S.failed_calls source.new ≡ S.failed_calls source.old + 1 }
        ensures same { result ≢ Err ReadFault.Read
            → S.failed_calls source.new ≡ S.failed_calls source.old }
    {
        let mut text = Vec::new(self.alloc);
        'lines: loop {
            let read = self.read_line(source)?;
            match read {
                None => return Ok(None),
                Some(line) => {
                    let dot = is_dot(&line);
                    if dot {
                        return Ok(Some(ScriptText::new(text)));
                    }
                    put_line(&mut text, &line, MOST_OF_TEXT)?;
                }
            }
        }
    }

    // A request whose text follows, and that text.
    fn with_text<S: ByteSource>(
        &mut self,
        source: &mut S,
        request: Request,
    ) -> Result<Command, ReadFault>
        requires { S.failed_calls source.old < 2 ^ 64 - 1 }
        ensures ahead { OnOk result (ReadsFewAhead self.old self.new) }
        ensures text { IfOk result (HasText (left_to self.old (S.remaining source.old))
            (left_to self.new (S.remaining source.new)) request) }
        ensures work { IfOk result (λ c. work_of self.new ≤ work_of self.old) }
        ensures paid { IfOk result (λ c. IsPaid (turns_of self.old) (turns_of self.new)
            (S.remaining source.old) (S.remaining source.new)) }
        ensures called { IfOk result (λ c. AreTurnsCalled (turns_of self.old) (turns_of self.new)
            (S.calls source.old) (S.calls source.new)) }
        ensures endless_called { result ≡ Err ReadFault.Endless
            → HasCalled (turns_of self.old) (S.calls source.old) (S.calls source.new) }
        ensures endless { result ≡ Err ReadFault.Endless
            → IfSome (S.remaining source.old) (λ all. turns_of self.old ≤ length all) }
        ensures read { result ≡ Err ReadFault.Read
            → S.failed_calls source.new ≡ S.failed_calls source.old + 1 }
        ensures same { result ≢ Err ReadFault.Read
            → S.failed_calls source.new ≡ S.failed_calls source.old }
    {
        let text = self.text(source)?;
        match text {
            None => Ok(Command::Refused(ScriptRule::NoTextEnd)),
            Some(text) => Ok(Command::Asked { request, text }),
        }
    }

    // Remembers the line of a command.
    fn remember(&mut self, words: &[ScriptText]) -> Result<(), AllocError>
        ensures waiting { waiting_in self.new ≡ waiting_in self.old }
        ensures turns { turns_of self.new ≡ turns_of self.old }
    {
        self.command_line = self.lines;
        self.command_words = joined(self.alloc, words)?;
        Ok(())
    }

    // The command that a line with these words begins.
    fn command<S: ByteSource>(
        &mut self,
        source: &mut S,
        words: &[ScriptText],
    ) -> Result<Command, ReadFault>
        requires { S.failed_calls source.old < 2 ^ 64 - 1 }
        ensures ahead { OnOk result (ReadsFewAhead self.old self.new) }
        ensures said { IfOk result
            (λ c. IsCommandOfWords (left_to self.old (S.remaining source.old))
            (left_to self.new (S.remaining source.new)) words.now c) }
        ensures work { IfOk result (λ c. work_of self.new ≤ work_of self.old) }
        ensures paid { IfOk result (λ c. IsPaid (turns_of self.old) (turns_of self.new)
            (S.remaining source.old) (S.remaining source.new)) }
        ensures called { IfOk result (λ c. AreTurnsCalled (turns_of self.old) (turns_of self.new)
            (S.calls source.old) (S.calls source.new)) }
        ensures endless_called { result ≡ Err ReadFault.Endless
            → HasCalled (turns_of self.old) (S.calls source.old) (S.calls source.new) }
        ensures endless { result ≡ Err ReadFault.Endless
            → IfSome (S.remaining source.old) (λ all. turns_of self.old ≤ length all) }
        ensures read { result ≡ Err ReadFault.Read
            → S.failed_calls source.new ≡ S.failed_calls source.old + 1 }
        ensures same { result ≢ Err ReadFault.Read
            → S.failed_calls source.new ≡ S.failed_calls source.old }
    {
        self.remember(words)?;
        match request_of(self.alloc, words)? {
            None => Ok(Command::Refused(ScriptRule::NoCommand)),
            Some(request) => {
                if request.has_text() {
                    return self.with_text(source, request);
                }
                Ok(Command::Asked {
                    request,
                    text: ScriptText::new(Vec::new(self.alloc)),
                })
            }
        }
    }

    /// The next command, or none at the end of the script. No more is read than holds the last line
    /// feed of the command. Behind a last line that lacks its line feed the source is read once
    /// more. A line that a failed read cuts off is not taken. Errors: a call that failed, a source
    /// that has not ended after 16,777,216 calls over the whole script that gave bytes, or want of
    /// memory; after them nothing is promised of further calls.
    pub fn next<S: ByteSource>(&mut self, source: &mut S) -> Result<Option<Command>, ReadFault>
        requires { S.failed_calls source.old < 2 ^ 64 - 1 }
        // The command is the first of those that were left, and the others are left still.
        ensures next { IfOk result (λ c. IsNextCommand (left_to self.old (S.remaining source.old))
            (left_to self.new (S.remaining source.new)) c) }
        // At most 4,096 bytes are read and not yet used, as long as no more were.
        ensures ahead { OnOk result (ReadsFewAhead self.old self.new) }
        // Each command takes some of the work that is left, so that asking until there is no
        // command ends.
        ensures work { IfOk result (λ c. IfSome c (λ some. work_of self.new < work_of self.old)) }
        // Each turn that is taken was a call that gave a byte at least, and `Endless` comes where
        // no turn is left.
        ensures paid { IfOk result (λ c. IsPaid (turns_of self.old) (turns_of self.new)
            (S.remaining source.old) (S.remaining source.new)) }
        ensures called { IfOk result (λ c. AreTurnsCalled (turns_of self.old) (turns_of self.new)
            (S.calls source.old) (S.calls source.new)) }
        ensures endless_called { result ≡ Err ReadFault.Endless
            → HasCalled (turns_of self.old) (S.calls source.old) (S.calls source.new) }
        ensures endless { result ≡ Err ReadFault.Endless
            → IfSome (S.remaining source.old) (λ all. turns_of self.old ≤ length all) }
        // `Read` comes after one failed call, and all else after none.
        ensures read { result ≡ Err ReadFault.Read
            → S.failed_calls source.new ≡ S.failed_calls source.old + 1 }
        ensures same { result ≢ Err ReadFault.Read
            → S.failed_calls source.new ≡ S.failed_calls source.old }
    {
        'lines: loop {
            let read = self.read_line(source)?;
            match read {
                None => return Ok(None),
                Some(line) => {
                    let words = words_of(self.alloc, &line)?;
                    let skipped = skips(&line, &words);
                    if !skipped {
                        let command = self.command(source, &words)?;
                        return Ok(Some(command));
                    }
                }
            }
        }
    }
}
