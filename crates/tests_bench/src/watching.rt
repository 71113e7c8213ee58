//! Watches a model and three tests whose versions stand in the table `versions.txt`: a line for
//! each, with the path and the file that holds the version. The lines of `later.txt` name the paths
//! that have a later version, as standard input does for the program. What is written is compared
//! with what it is with 1, 2, 4 and 32 workers; then a read and a write fail. At last what people
//! are told of the versions of the table `told.txt`.

ghost use Rattle.std.specs.Prelude.{None};

use crate::sessions::run::Ending;
use command_answers::{MemorySink, MemorySource};
use std::alloc::{AllocError, Global};
use std::io::Write;
use std::rt::Files;
use std::sync::Wait;
use std::thread::Threads;
use std::{fs, io};
use watch_run::{Version, VersionTeller, Versions, watch};

const MODELS: [&str; 1] = ["power.cat"];

const WORKERS: [u32; 4] = [1, 2, 4, 32];

const TESTS: [&str; 3] = ["MP+lwsync+addr.litmus", "MP.litmus", "LB+datas.litmus"];

/// Which read and which write fails.
const FAILURES: [(Option<u64>, Option<u64>); 5] = [
    (Some(0), None),
    (Some(1), None),
    (None, Some(0)),
    (None, Some(1)),
    (None, None),
];

/// A version of a file. The text is None where it cannot be read.
#[derive(Drop)]
struct Row {
    path: String,
    text: Option<Vec<u8>>,
}

/// The versions that were not given yet.
#[derive(Drop)]
struct Table {
    rows: Vec<Row>,
}

impl Table {
    fn take(&mut self, path: &str) -> Option<Row> {
        match self.rows.iter().position(|row| row.path.as_str() == path) {
            Some(index) if index < self.rows.len() => Some(self.rows.remove(index)),
            _ => None,
        }
    }
}

fn version_of(text: Option<Vec<u8>>) -> Version {
    match text {
        Some(text) => Version::Text(text),
        None => Version::Unread,
    }
}

impl Versions for Table {
    ghost readings = { λ t. None };

    fn version(&mut self, _alloc: Global, path: &str) -> Version {
        match self.take(path) {
            Some(row) => {
                let Row { path: _, text } = row;
                version_of(text)
            }
            None => Version::Unread,
        }
    }
}

fn row_of<R: Files + AllocGlobal>(rt: &R, line: &str) -> Result<Row, AllocError> {
    let (path, file) = line.split_once(" ").unwrap_or((line, ""));
    let version_path = format!(in rt.alloc(); "watched/{file}")?;
    let text = match fs::read(rt, version_path.as_str()) {
        Ok(text) => Some(text),
        Err(_) => None,
    };
    Ok(Row {
        path: String::from_str(rt.alloc(), path)?,
        text,
    })
}

fn table_of<R: Files + AllocGlobal>(rt: &R, list: &str) -> Result<Table, AllocError> {
    let mut rows = Vec::new(rt.alloc());
    for line in list.lines() {
        rows.push(row_of(rt, line)?)?;
    }
    Ok(Table { rows })
}

fn read_table<R: Files + AllocGlobal>(rt: &R) -> io::Result<Table> {
    let list = fs::read_to_string(rt, "watched/versions.txt")?;
    Ok(table_of(rt, &list)?)
}

// What people are told of these versions, one after another.
fn tell_versions<R: AllocGlobal + Files + Print>(rt: &R) -> io::Result<()> {
    let list = fs::read_to_string(rt, "watched/told.txt")?;
    let versions = table_of(rt, &list)?;
    let mut teller = VersionTeller::new(rt.alloc(), versions, &MODELS, true, io::writer(rt));
    for line in list.lines() {
        println!(rt; "version {line}")?;
        let (path, _file) = line.split_once(" ").unwrap_or((line, ""));
        drop(teller.version(rt.alloc(), path));
    }
    Ok(())
}

// Watches with so many workers, where that read and that write fail.
fn run<R>(
    rt: &R,
    lines: &[u8],
    workers: u32,
    reads: Option<u64>,
    writes: Option<u64>,
) -> io::Result<Ending>
where
    R: AllocGlobal + Files + Threads + Wait + Copy + Drop + Send + Sync,
{
    let versions = read_table(rt)?;
    let source = MemorySource::failing_at(lines, reads);
    let sink = MemorySink::failing_at(Vec::new(rt.alloc()), writes);
    let ended = watch(rt, &MODELS, &TESTS, workers, versions, source, sink)?;
    Ok(Ending {
        output: Vec::from_slice(rt.alloc(), ended.sink.as_bytes())?,
        end: ended.answer,
    })
}

// What watching writes with so many workers, and how it ends.
fn watched<R>(rt: &R, lines: &[u8], workers: u32) -> io::Result<Vec<u8>>
where
    R: AllocGlobal + Files + Threads + Wait + Copy + Drop + Send + Sync,
{
    let Ending { output, end } = run(rt, lines, workers, None, None)?;
    let mut said = output;
    match end {
        Ok(is_refused) => write!(said, "some text was refused: {is_refused}\n")?,
        Err(fault) => write!(said, "fault: {fault}\n")?,
    }
    Ok(said)
}

// How watching ends where a read or a write fails, and how much it has written.
fn tell_failing<R>(rt: &R, reads: Option<u64>, writes: Option<u64>) -> io::Result<()>
where
    R: AllocGlobal + Files + Print + Threads + Wait + Copy + Drop + Send + Sync,
{
    let ending = run(rt, b"power.cat\n", 2, reads, writes)?;
    let length = ending.output.len();
    match ending.end {
        Ok(_refused) => println!(rt; "no fault, {length} bytes"),
        Err(fault) => println!(rt; "fault: {fault}, {length} bytes"),
    }
}

// How watching ends for each of the failures.
fn tell_failures<R>(rt: &R) -> io::Result<()>
where
    R: AllocGlobal + Files + Print + Threads + Wait + Copy + Drop + Send + Sync,
{
    for (reads, writes) in FAILURES {
        tell_failing(rt, reads, writes)?;
    }
    Ok(())
}

// Says of each number of workers whether they write the same as none.
fn compare<R>(rt: &R, lines: &[u8], alone: &[u8]) -> io::Result<()>
where
    R: AllocGlobal + Files + Print + Threads + Wait + Copy + Drop + Send + Sync,
{
    for workers in WORKERS {
        let beside = watched(rt, lines, workers)?;
        let is_same = beside.as_slice() == alone;
        println!(rt; "the same with {workers} workers: {is_same}")?;
    }
    Ok(())
}

/// Watches without workers, and compares that with what several workers write.
pub fn show_all<R>(rt: &R) -> io::Result<()>
where
    R: AllocGlobal + Files + Print + Threads + Wait + Copy + Drop + Send + Sync,
{
    let lines = fs::read(rt, "watched/later.txt")?;
    let alone = watched(rt, &lines, 0)?;
    io::writer(rt).write_all(&alone)?;
    compare(rt, &lines, &alone)?;
    tell_failures(rt)?;
    tell_versions(rt)
}
