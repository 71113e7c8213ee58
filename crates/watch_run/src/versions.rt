//! Where the versions of files come from.

ghost use Rattle.std.specs.Prelude.{◌≡◌, List, [], ◌∷◌, Option, None};
ghost use Rattle.std.specs.IoError.{error_kind};
ghost use Rattle.watch_run.specs.Readings.{FileReading, AreReadBetween, unopened, IsReadOf};

use command_answers::{OfRead, SessionFault, read_text};
use std::alloc::Global;
use std::fmt::Display;
use std::fs::File;
use std::io;
use std::io::{Read, Write};
use std::rt::Files;

/// What is read of a file.
#[derive(Drop)]
pub enum Version {
    /// Its first 65,537 bytes, or all.
    Text(Vec<u8>),
    /// It cannot be read.
    Unread,
    /// A growth was refused.
    OutOfMemory,
}

/// A source of the present versions of files.
pub trait Versions {
    // What calls have read so far, where it is known.
    ghost readings: { Self → Option (List FileReading) };

    /// The present version of the file of this path.
    fn version(&mut self, alloc: Global, path: &str) -> Version
        ensures { AreReadBetween (readings self.old) (readings self.new)
            (record { path = path.now; version = result } ∷ []) };
}

/// The files of the system. A writer is told of a file that cannot be read, with the reason.
#[derive(Drop)]
pub struct FileVersions<'a, R, W> {
    rt: &'a R,
    errors: W,
}

impl<'a, R, W: Write> FileVersions<'a, R, W> {
    /// The files that this runtime reaches.
    pub fn new(rt: &'a R, errors: W) -> Self
        ensures files { result.rt ≡ rt.entry }
        ensures errors { result.errors ≡ errors }
    {
        FileVersions { rt, errors }
    }

    // What is said where the file cannot be opened.
    fn unopened(&mut self, path: &str, error: &io::Error) -> Version
        ensures { result ≡ unopened (error_kind error.now) }
    {
        match error.kind() {
            io::ErrorKind::OutOfMemory => Version::OutOfMemory,
            _ => self.unread(path, error),
        }
    }

    // What is read of the file of this path.
    fn text_in<F: Read + Drop>(&mut self, alloc: Global, path: &str, file: F) -> Version
        ensures { IsReadOf (F.remaining file) result }
    {
        match read_text(alloc, &mut OfRead::new(file)) {
            Ok(text) => Version::Text(text),
            Err(SessionFault::Memory) => Version::OutOfMemory,
            Err(_) => self.unread(path, &"the file cannot be read to its end"),
        }
    }

    // What cannot be told is left out.
    fn unread<T: Display>(&mut self, path: &str, reason: &T) -> Version
        ensures { result ≡ Version.Unread }
    {
        let _ = self.errors.write_fmt(format_args!("{path}: {reason}\n"));
        Version::Unread
    }
}

impl<'a, R: Files, W: Write> Versions for FileVersions<'a, R, W> {
    ghost readings = { λ s. None };

    fn version(&mut self, alloc: Global, path: &str) -> Version {
        match File::open(self.rt, path) {
            Ok(file) => self.text_in(alloc, path, file),
            Err(error) => self.unopened(path, &error),
        }
    }
}
