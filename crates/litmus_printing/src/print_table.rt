//! Prints tests.

ghost use Rattle.std.specs.Prelude.{◌≡◌, ◌++◌, map, OnOk, IfOk};
ghost use Rattle.text_values.specs.TestValue.{thread_steps, content_of};
ghost use Rattle.litmus_printing.specs.Printing.{all_of, item_text, cell_text, row_text, rows_text, longest, names, observed_text, entry_line, printed};

use crate::print::{put_condition, put_entry, put_place, put_step};
use std::alloc::{AllocError, Global};
use text_values::{InitEntry, Place, Step, Test, Thread, put_between, put_bytes, put_decimal};

// Appends the names of the columns.
fn put_header(text: &mut Vec<u8>, threads: usize) -> Result<(), AllocError>
    ensures { OnOk result (text.new.items ≡ text.old.items ++ row_text (names 0 threads)) }
{
    for thread in 0..threads {
        put_between(text, b" | ", thread)?;
        put_bytes(text, b"P")?;
        put_decimal(text, thread as u64)?;
    }
    put_bytes(text, b" ;\n")
}

// Appends the step of this number, or nothing once the thread has ended.
fn put_cell(text: &mut Vec<u8>, steps: &[Step], number: usize) -> Result<(), AllocError>
    ensures { OnOk result (text.new.items ≡ text.old.items ++ cell_text number steps.now) }
{
    if number < steps.len() {
        put_step(text, &steps[number])
    } else {
        Ok(())
    }
}

// Appends the row of the steps of this number.
fn put_row(text: &mut Vec<u8>, threads: &[Thread], number: usize) -> Result<(), AllocError>
    ensures { OnOk result (text.new.items
        ≡ text.old.items ++ row_text (map (cell_text number) (map thread_steps threads.now))) }
{
    for (i, thread) in threads.iter().enumerate() {
        put_between(text, b" | ", i)?;
        put_cell(text, &thread.steps, number)?;
    }
    put_bytes(text, b" ;\n")
}

// The number of steps of the longest thread.
fn longest(threads: &[Thread]) -> usize
    ensures { result ≡ longest (map thread_steps threads.now) }
{
    let mut most = 0usize;
    for thread in threads {
        most = most.max(thread.steps.len());
    }
    most
}

fn put_rows(text: &mut Vec<u8>, threads: &[Thread]) -> Result<(), AllocError>
    ensures { OnOk result (text.new.items
        ≡ text.old.items
        ++ rows_text 0 (longest (map thread_steps threads.now)) (map thread_steps threads.now)) }
{
    let most = longest(threads);
    for number in 0..most {
        put_row(text, threads, number)?;
    }
    Ok(())
}

// Appends a place of the list, with its semicolon.
fn put_item(text: &mut Vec<u8>, place: &Place) -> Result<(), AllocError>
    ensures { OnOk result (text.new.items ≡ text.old.items ++ item_text place.now) }
{
    put_place(text, place)?;
    put_bytes(text, b";")
}

fn put_observed(text: &mut Vec<u8>, observed: &[Place]) -> Result<(), AllocError>
    ensures { OnOk result (text.new.items ≡ text.old.items ++ observed_text observed.now) }
{
    if observed.is_empty() {
        return Ok(());
    }
    put_bytes(text, b"locations [")?;
    for (i, place) in observed.iter().enumerate() {
        put_between(text, b" ", i)?;
        put_item(text, place)?;
    }
    put_bytes(text, b"]\n")
}

fn put_entries(text: &mut Vec<u8>, entries: &[InitEntry]) -> Result<(), AllocError>
    ensures { OnOk result (text.new.items ≡ text.old.items ++ all_of (map entry_line entries.now)) }
{
    for entry in entries {
        put_entry(text, entry)?;
    }
    Ok(())
}

/// The text of a test: a line with its name, the initial values, the table with a label in a cell
/// of its own, the `locations`, if there are any, and the condition. Errors: out of memory.
pub fn print_test(alloc: Global, test: &Test) -> Result<Vec<u8>, AllocError>
    ensures { IfOk result (λ v. v.items ≡ printed (content_of test.now)) }
{
    let mut text = Vec::new(alloc);
    put_bytes(&mut text, b"PPC ")?;
    put_bytes(&mut text, test.name.as_bytes())?;
    put_bytes(&mut text, b"\n{\n")?;
    put_entries(&mut text, &test.init)?;
    put_bytes(&mut text, b"}\n")?;
    put_header(&mut text, test.threads.len())?;
    put_rows(&mut text, &test.threads)?;
    put_observed(&mut text, &test.observed)?;
    put_condition(&mut text, &test.condition)?;
    put_bytes(&mut text, b"\n")?;
    Ok(text)
}
