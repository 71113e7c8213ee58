//! The texts of the parts of a test.

use litmus_printing::{print_test, put_place, put_value};
use std::alloc::{AllocError, Global};
use text_copies::copied_threads;
use text_values::{
    Condition, InitEntry, Name, Place, Proposition, Quantifier, Test, Thread, put_bytes,
};

// What stands before and behind the rows of a printed test of one thread without initial values.
const BEFORE_ROWS: &[u8] = b"PPC T\n{\n}\nP0 ;\n";

const BEHIND_ROWS: &[u8] = b"exists (true)\n";
// What ends a row.
const ROW_END: &[u8] = b" ;\n";

// A location stands here without brackets.
fn put_entry(text: &mut Vec<u8>, entry: &InitEntry) -> Result<(), AllocError> {
    match &entry.place {
        Place::Location(name) => put_bytes(text, name.as_bytes())?,
        Place::Register(_, _) => put_place(text, &entry.place)?,
    }
    put_bytes(text, b"=")?;
    put_value(text, &entry.value)?;
    put_bytes(text, b";\n")
}

/// The block of initial values.
pub fn init_text(alloc: Global, entries: &[InitEntry]) -> Result<Vec<u8>, AllocError> {
    let mut text = Vec::new(alloc);
    put_bytes(&mut text, b"{\n")?;
    for entry in entries {
        put_entry(&mut text, entry)?;
    }
    put_bytes(&mut text, b"}\n")?;
    Ok(text)
}

// A test of these threads alone.
fn bare_test(alloc: Global, threads: &[Thread]) -> Result<Test, AllocError> {
    Ok(Test {
        name: Name::new(alloc, b"T")?,
        init: Vec::new(alloc),
        threads: copied_threads(alloc, threads)?,
        observed: Vec::new(alloc),
        condition: Condition {
            quantifier: Quantifier::Exists,
            proposition: Proposition::Constant(true),
        },
    })
}

// The rows of a printed test, without the end of the last row.
fn rows_in(text: &[u8]) -> &[u8] {
    let rows = match text.strip_prefix(BEFORE_ROWS) {
        Some(rows) => rows,
        None => text,
    };
    let rows = match rows.strip_suffix(BEHIND_ROWS) {
        Some(rows) => rows,
        None => rows,
    };
    match rows.strip_suffix(ROW_END) {
        Some(rows) => rows,
        None => rows,
    }
}

/// The steps of one thread, with semicolons between them: the rows of the printed test of that
/// thread alone.
pub fn thread_text(alloc: Global, thread: &[Thread]) -> Result<Vec<u8>, AllocError> {
    let test = bare_test(alloc, thread)?;
    let text = print_test(alloc, &test)?;
    Vec::from_slice(alloc, rows_in(&text))
}

/// The list of `locations`, or no text where it is empty.
pub fn locations_text(alloc: Global, places: &[Place]) -> Result<Vec<u8>, AllocError> {
    let mut text = Vec::new(alloc);
    if places.is_empty() {
        return Ok(text);
    }
    put_bytes(&mut text, b"locations [")?;
    for place in places {
        put_place(&mut text, place)?;
        put_bytes(&mut text, b";")?;
    }
    put_bytes(&mut text, b"]\n")?;
    Ok(text)
}
