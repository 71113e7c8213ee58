//! The lines of an input, and the paths of files that changed between them.

ghost use Rattle.std.specs.Prelude.{◌≡◌, ◌≤◌, ℕ, None, IfOk, length};

use crate::file::PolledFile;
use crate::inbox::{Inbox, Taken};
use session_script::{ByteSource, CallFailed};
use std::alloc::{AllocError, Global};
use std::rt::Files;
use std::sync::{Arc, Wait};
use std::thread;
use std::thread::Threads;
use std::time::{Clock, Duration};
use text_values::put_bytes;

// A line of more bytes names no file.
const MOST_OF_LINE: usize = 4096;

// Where a file is changing, the next look comes after this part of the time between two looks.
const HASTE: u64 = 5;

// So many seconds are waited where no file is looked at.
const NEVER: u64 = 3600;

/// The lines of standard input, as they come. Where none comes for some time it looks at the times
/// and sizes of some files, and gives the path of each that changed as a line. A file that is being
/// written is given once two looks in a row find the same text, and one that has no text only where
/// that stays so; either is looked at more often. A file whose path the input gives is taken as
/// given. It ends where the input does, and looks at no file where the time is 0.
#[derive(Drop)]
pub struct PolledSource<'a, R> {
    lines: PolledLines<'a, R>,
    calls: u64,
    failed: u64,
}

// The input, the files, and what was given of both.
#[derive(Drop)]
struct PolledLines<'a, R> {
    rt: &'a R,
    inbox: Arc<Inbox>,
    files: Vec<PolledFile<'a>>,
    // The time between two looks, in milliseconds, or 0 where it looks at none.
    pause: u64,
    // Lines with paths, of which so many bytes were given.
    names: Vec<u8>,
    given: usize,
    // The line that the input has begun.
    line: Vec<u8>,
}

// The files of these paths as they are now. No line can have a path with a line feed.
fn polled_files<'a, R: Files>(
    rt: &R,
    alloc: Global,
    paths: &[&'a str],
) -> Result<Vec<PolledFile<'a>>, AllocError> {
    let mut files = Vec::with_capacity(alloc, paths.len())?;
    for path in paths {
        if !path.as_bytes().contains(&b'\n') {
            files.push(PolledFile::new(rt, *path))?;
        }
    }
    Ok(files)
}

// Reads standard input to its end.
fn read_input<R: Input + Wait>(rt: &R, inbox: &Inbox) {
    inbox.read_all(rt, &mut rt.reader());
}

// Starts a thread that reads standard input.
fn start_reading<R>(rt: &R, alloc: Global) -> Result<Arc<Inbox>, AllocError>
where
    R: Input + Threads + Wait + Copy + Drop + Send + Sync + 'static,
    R::Reader: Send + Sync + 'static,
{
    let inbox = Arc::new(alloc, Inbox::new(alloc)?)?;
    let own = *rt;
    let filled = Arc::try_clone(&inbox)?;
    match thread::spawn(rt, move || read_input(&own, &*filled)) {
        Ok(_) => Ok(inbox),
        Err(_) => Err(AllocError),
    }
}

impl<'a, R> PolledSource<'a, R>
where
    R: AllocGlobal + Clock + Files + Input + Threads + Wait + Copy + Drop + Send + Sync + 'static,
    R::Reader: Send + Sync + 'static,
{
    /// Standard input and the files of these paths, at which it looks after so many milliseconds,
    /// or never where that is 0. A thread reads the input, and stays where a read waits. Errors:
    /// out of memory, or no thread can be started.
    pub fn new(rt: &'a R, paths: &[&'a str], pause: u64) -> Result<Self, AllocError>
        ensures { IfOk result (λ s. (s.calls ≡ 0) × (s.failed ≡ 0)) }
    {
        let alloc = rt.alloc();
        let lines = PolledLines {
            rt,
            files: polled_files(rt, alloc, paths)?,
            inbox: start_reading(rt, alloc)?,
            pause,
            names: Vec::new(alloc),
            given: 0,
            line: Vec::new(alloc),
        };
        Ok(PolledSource {
            lines,
            calls: 0,
            failed: 0,
        })
    }
}

impl<'a, R: Clock + Files + Wait> PolledLines<'a, R> {
    // Gives bytes of the lines with paths. How many.
    fn give_names(&mut self, buffer: &mut [u8]) -> usize
        ensures { result ≤ length buffer.new }
    {
        let rest = &self.names[self.given.min(self.names.len())..];
        let count = rest.len().min(buffer.len());
        buffer[..count].copy_from_slice(&rest[..count]);
        if count == rest.len() {
            self.names.clear();
            self.given = 0;
        } else {
            self.given = self.given.saturating_add(count);
        }
        count
    }

    // How long to wait before the next look.
    fn pause(&self) -> Duration {
        if self.pause == 0 {
            return Duration::from_secs(NEVER);
        }
        for file in &self.files {
            if file.is_changing() {
                return Duration::from_millis((self.pause / HASTE).max(1));
            }
        }
        Duration::from_millis(self.pause)
    }

    // Goes over a byte that the input gives.
    fn pass_byte(&mut self, byte: u8) {
        if byte == b'\n' {
            name_typed(self.rt, &mut self.files, &self.line);
            self.line.clear();
        } else if self.line.len() <= MOST_OF_LINE {
            // A line that cannot be kept names no file.
            let _ = self.line.push(byte);
        }
    }

    // Goes over bytes that the input gives.
    fn pass(&mut self, bytes: &[u8]) {
        for byte in bytes {
            self.pass_byte(*byte);
        }
    }

    // Waits for a line, of a file that changed or of the input. How many bytes of it are given, 0
    // at the end. Errors: a read failed.
    fn read_on(&mut self, buffer: &mut [u8]) -> Result<usize, CallFailed>
        ensures { IfOk result (λ n. n ≤ length buffer.new) }
    {
        if buffer.is_empty() {
            return Ok(0);
        }
        let rt = self.rt;
        for _ in rt.forever() {
            let count = self.give_names(buffer);
            if count > 0 {
                return Ok(count);
            }
            let pause = self.pause();
            match self.inbox.take(rt, buffer, pause) {
                Taken::Bytes(count) => {
                    self.pass(&buffer[..count]);
                    return Ok(count);
                }
                Taken::Nothing => self.look(),
                Taken::End => return Ok(0),
                Taken::Failed => return Err(CallFailed),
            }
        }
        unreachable!()
    }

    // Names the files that are due, where it looks at any and no line is begun.
    fn look(&mut self) {
        if self.pause > 0 && self.line.is_empty() {
            name_due(self.rt, &mut self.files, &mut self.names);
        }
    }
}

// Names the files that are due.
fn name_due<R: Files>(rt: &R, files: &mut [PolledFile<'_>], names: &mut Vec<u8>) {
    for file in files.iter_mut() {
        if file.is_due(rt) && put_line(names, file.path()) {
            file.name();
        }
    }
}

// Takes the files of a line of the input as named.
fn name_typed<R: Files>(rt: &R, files: &mut [PolledFile<'_>], line: &[u8]) {
    for file in files.iter_mut() {
        if file.path().as_bytes() == line {
            file.name_now(rt);
        }
    }
}

// Appends a line, or nothing. Whether it is there.
fn put_line(text: &mut Vec<u8>, line: &str) -> bool {
    let start = text.len();
    if put_bytes(text, line.as_bytes()).is_ok() && text.push(b'\n').is_ok() {
        return true;
    }
    text.truncate(start);
    false
}

impl<'a, R: Clock + Files + Wait> ByteSource for PolledSource<'a, R> {
    ghost remaining = { λ s. None };

    ghost calls = { λ s. s.calls };

    ghost failed_calls = { λ s. s.failed };

    fn read_some(&mut self, buffer: &mut [u8]) -> Result<usize, CallFailed> {
        self.calls = self.calls.saturating_add(1);
        match self.lines.read_on(buffer) {
            Ok(count) => Ok(count),
            Err(e) => {
                self.failed += 1;
                Err(e)
            }
        }
    }
}
