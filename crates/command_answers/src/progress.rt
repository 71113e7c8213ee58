//! Tells people how far a table is.

use session_answers::{Progress, ProgressListener};
use std::alloc::{AllocError, Global};
use std::io::Write;
use std::rt::Clock;
use std::time::Instant;
use text_values::{put_bytes, put_decimal};

// The shortest time between two lines, in milliseconds.
const PAUSE: u64 = 200;

// From the start of the line on, with what was there before wiped out.
const LINE_START: &[u8] = b"\r\x1b[K";

// The line: how many cells of all are settled, by how many jobs, and how many a second.
fn progress_line(
    alloc: Global,
    progress: Progress,
    milliseconds: u64,
) -> Result<Vec<u8>, AllocError> {
    let settled = progress.settled as u64;
    let mut line = Vec::new(alloc);
    put_bytes(&mut line, LINE_START)?;
    put_decimal(&mut line, settled)?;
    put_bytes(&mut line, b" of ")?;
    put_decimal(&mut line, progress.cells as u64)?;
    put_bytes(&mut line, b" cells, ")?;
    if let Some(jobs) = progress.jobs {
        put_decimal(&mut line, jobs)?;
        put_bytes(&mut line, b" jobs, ")?;
    }
    put_decimal(
        &mut line,
        settled.saturating_mul(1000) / milliseconds.max(1),
    )?;
    put_bytes(&mut line, b" cells a second")?;
    Ok(line)
}

/// Tells a writer that is a terminal how far a table is, on one line that is written anew now and
/// then and wiped out at the end. What cannot be told is left out.
#[derive(Drop)]
pub struct ProgressTeller<'c, C, W> {
    alloc: Global,
    clock: &'c C,
    writer: W,
    is_terminal: bool,
    started: Option<Instant>,
    told: u64,
}

impl<'c, C: Clock, W: Write> ProgressTeller<'c, C, W> {
    /// Has heard of no table.
    pub fn new(alloc: Global, clock: &'c C, writer: W, is_terminal: bool) -> Self {
        ProgressTeller {
            alloc,
            clock,
            writer,
            is_terminal,
            started: None,
            told: 0,
        }
    }

    // The milliseconds since the table was begun.
    fn milliseconds(&self) -> Option<u64> {
        match &self.started {
            None => None,
            Some(started) => match started.elapsed(self.clock) {
                Ok(time) => Some(
                    time.as_secs()
                        .saturating_mul(1000)
                        .saturating_add(u64::from(time.subsec_millis())),
                ),
                Err(_) => None,
            },
        }
    }

    fn begin(&mut self) {
        self.told = 0;
        self.started = match Instant::now(self.clock) {
            Ok(now) => Some(now),
            Err(_) => None,
        };
    }

    fn tell(&mut self, progress: Progress, milliseconds: u64) {
        self.told = milliseconds;
        if let Ok(line) = progress_line(self.alloc, progress, milliseconds) {
            let _ = self.writer.write_all(&line);
        }
    }
}

impl<C: Clock, W: Write> ProgressListener for ProgressTeller<'_, C, W> {
    fn is_due(&mut self) -> bool {
        if !self.is_terminal {
            return false;
        }
        match self.milliseconds() {
            Some(milliseconds) => milliseconds >= self.told.saturating_add(PAUSE),
            None => {
                self.begin();
                false
            }
        }
    }

    fn hear_progress(&mut self, progress: Progress) {
        if let Some(milliseconds) = self.milliseconds() {
            self.tell(progress, milliseconds);
        }
    }

    fn hear_end(&mut self) {
        if self.told > 0 {
            let _ = self.writer.write_all(LINE_START);
        }
        self.told = 0;
        self.started = None;
    }
}
