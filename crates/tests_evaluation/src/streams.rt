//! From a source of bytes to a sink, each of which fails at each of its calls in turn.

ghost use Rattle.std.specs.Prelude.{None};

use command_answers::{
    ByteSink, CallFailed, MemorySink, MemorySource, OfRead, eval_stream, read_prefix, read_text,
    write_answer,
};
use std::alloc::AllocError;
use std::io;
use tests_cases::streams::{Endless, word_of};

/// The log of message passing under sequential consistency.
const LOG: &[u8] =
    b"Test MP Allowed\nStates 3\n1:r1=0; 1:r3=0;\n1:r1=0; 1:r3=1;\n1:r1=1; 1:r3=1;\nNo\nWitnesses\nPositive: 0 Negative: 3\nCondition exists (1:r1=1 /\\ 1:r3=0)\nObservation MP Never 0 3\n";

const MODEL: &[u8] = b"acyclic po|rf|fr|co as sc\n";

const TEST: &[u8] =
    b"PPC MP\n{\n0:r2=x; 0:r4=y;\n1:r2=y; 1:r4=x;\n}\n P0           | P1           ;\n li r1,1      | lwz r1,0(r2) ;\n stw r1,0(r2) | lwz r3,0(r4) ;\n li r3,1      |              ;\n stw r3,0(r4) |              ;\nexists (1:r1=1 /\\ 1:r3=0)\n";

/// A sink that takes at most seven bytes at a call.
#[derive(Drop)]
struct Sipping<S> {
    inner: S,
}

impl<S: ByteSink> ByteSink for Sipping<S> {
    ghost contents = { λ _. None };

    ghost failed_calls = { λ s. S.failed_calls s.inner };

    fn write_some(&mut self, bytes: &[u8]) -> Result<usize, CallFailed> {
        let count = bytes.len().min(7);
        self.inner.write_some(&bytes[..count])
    }
}

/// Prints how much of the log was written, and an answer before it.
fn show_written<R: Print>(rt: &R, head: &str, written: &[u8]) -> io::Result<()> {
    if written.is_empty() {
        return println!(rt; "{head}, nothing written");
    }
    if written == LOG {
        return println!(rt; "{head}, the whole log");
    }
    if LOG.starts_with(written) {
        return println!(rt; "{head}, {} bytes of the log", written.len());
    }
    match str::from_utf8(written) {
        Ok(text) => print!(rt; "{head}, {text}"),
        Err(_) => println!(rt; "{head}, no text"),
    }
}

fn show_sources<R: Print + AllocGlobal>(rt: &R, input: &[u8]) -> io::Result<()> {
    let alloc = rt.alloc();
    for call in 0..6 {
        let mut source = MemorySource::failing_at(input, Some(call));
        let mut sink = MemorySink::failing_at(Vec::new(alloc), None);
        let word = word_of(eval_stream(rt, &mut source, &mut sink));
        let head = format!(in alloc; "source that fails at call {call}: {word}")?;
        show_written(rt, head.as_str(), sink.as_bytes())?;
    }
    Ok(())
}

fn show_sinks<R: Print + AllocGlobal>(rt: &R, input: &[u8]) -> io::Result<()> {
    let alloc = rt.alloc();
    for call in 0..40 {
        let mut source = MemorySource::failing_at(input, None);
        let mut sink = Sipping {
            inner: MemorySink::failing_at(Vec::new(alloc), Some(call)),
        };
        let word = word_of(eval_stream(rt, &mut source, &mut sink));
        let head = format!(in alloc; "sink that fails at call {call}: {word}")?;
        show_written(rt, head.as_str(), sink.inner.as_bytes())?;
    }
    Ok(())
}

fn show_fronts<R: Print + AllocGlobal>(rt: &R) -> io::Result<()> {
    let alloc = rt.alloc();
    for most in [0, 1, 10, LOG.len(), 1_000] {
        let is_front = match read_prefix(alloc, &mut OfRead::new(LOG), most) {
            Ok(bytes) => bytes.as_slice() == &LOG[..most.min(LOG.len())],
            Err(_) => false,
        };
        let word = if is_front {
            "those of the log"
        } else {
            "others"
        };
        println!(rt; "source of the library, the first {most} bytes: {word}")?;
    }
    Ok(())
}

/// The text with blanks and a line feed behind it.
fn put_padded(input: &mut Vec<u8>, text: &[u8], length: usize) -> Result<(), AllocError> {
    input.extend_from_slice(text)?;
    for _ in text.len() + 1..length {
        input.push(b' ')?;
    }
    input.push(b'\n')?;
    Ok(())
}

fn show_lengths<R: Print + AllocGlobal>(rt: &R) -> io::Result<()> {
    let alloc = rt.alloc();
    let lengths = [
        (65_536, 65_536),
        (65_536, 65_537),
        (65_536, 200_000),
        (65_537, 65_536),
        (200_000, 1_000),
    ];
    for (model, test) in lengths {
        let mut input = Vec::new(alloc);
        put_padded(&mut input, MODEL, model)?;
        input.extend_from_slice(b".\n")?;
        put_padded(&mut input, TEST, test)?;
        let mut sink = MemorySink::failing_at(Vec::new(alloc), None);
        let mut source = MemorySource::failing_at(&input, None);
        let word = word_of(eval_stream(rt, &mut source, &mut sink));
        let head = format!(in alloc; "model of {model} bytes, test of {test}: {word}")?;
        show_written(rt, head.as_str(), sink.as_bytes())?;
    }
    Ok(())
}

fn show_ends<R: Print + AllocGlobal>(rt: &R) -> io::Result<()> {
    let alloc = rt.alloc();
    show_fronts(rt)?;
    show_lengths(rt)?;
    let mut sink = MemorySink::failing_at(Vec::new(alloc), None);
    let word = word_of(eval_stream(rt, &mut Endless::new(), &mut sink));
    let head = format!(in alloc; "source that does not end: {word}")?;
    show_written(rt, head.as_str(), sink.as_bytes())
}

fn show_read<R: Print + AllocGlobal>(rt: &R) -> io::Result<()> {
    let alloc = rt.alloc();
    match read_text(alloc, &mut MemorySource::failing_at(TEST, None)) {
        Ok(bytes) if bytes.as_slice() == TEST => println!(rt; "text read: the same")?,
        _ => println!(rt; "text read: another")?,
    }
    let word = match read_text(alloc, &mut MemorySource::failing_at(TEST, Some(1))) {
        Ok(_) => "done",
        Err(fault) => word_of(Err(fault)),
    };
    println!(rt; "text read where call 1 fails: {word}")
}

fn show_answers<R: Print + AllocGlobal>(rt: &R) -> io::Result<()> {
    let alloc = rt.alloc();
    let mut sink = MemorySink::failing_at(Vec::new(alloc), None);
    let word = word_of(write_answer(alloc, MODEL, TEST, &mut sink));
    let head = format!(in alloc; "answer written: {word}")?;
    show_written(rt, head.as_str(), sink.as_bytes())?;
    let mut sink = MemorySink::failing_at(Vec::new(alloc), Some(0));
    let word = word_of(write_answer(alloc, MODEL, TEST, &mut sink));
    let head = format!(in alloc; "answer written where call 0 fails: {word}")?;
    show_written(rt, head.as_str(), sink.as_bytes())
}

/// Prints the answer to an input, and whether one of its texts is refused.
pub fn show_answer<R: Print + AllocGlobal>(rt: &R, input: &[u8]) -> io::Result<()> {
    let mut source = MemorySource::failing_at(input, None);
    let mut sink = MemorySink::failing_at(Vec::new(rt.alloc()), None);
    let word = word_of(eval_stream(rt, &mut source, &mut sink));
    match str::from_utf8(sink.as_bytes()) {
        Ok(text) => print!(rt; "{word}: {text}"),
        Err(_) => println!(rt; "{word}: no text"),
    }
}

/// Prints what becomes of an input, with ten thousand blanks behind it for the sources that fail.
pub fn show<R: Print + AllocGlobal>(rt: &R, input: &[u8]) -> io::Result<()> {
    let mut longer = Vec::from_slice(rt.alloc(), input)?;
    for _ in 0..10_000 {
        longer.push(b' ')?;
    }
    show_sources(rt, &longer)?;
    show_sinks(rt, input)?;
    show_ends(rt)?;
    show_read(rt)?;
    show_answers(rt)
}
