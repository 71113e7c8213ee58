//! The edit of the bench that puts a part of a test.

ghost use Rattle.std.specs.Prelude.{IfOk};
ghost use Rattle.bench_texts.specs.Edits.{edit_of};
ghost use Rattle.watch_edits.specs.Edits.{IsPartEdit};

use crate::part_texts::{init_text, locations_text, thread_text};
use crate::parts::TestPart;
use bench_texts::Edit;
use litmus_printing::print_condition;
use std::alloc::{AllocError, Global};
use text_values::Test;

// The edit that puts a thread. The text of a thread that is not there is empty.
fn thread_edit(alloc: Global, name: Vec<u8>, new: &Test, index: usize) -> Result<Edit, AllocError>
    ensures { IfOk result (λ e. IsPartEdit name.items (edit_of e)) }
{
    let text = if index < new.threads.len() {
        thread_text(alloc, &new.threads[index..index + 1])?
    } else {
        Vec::new(alloc)
    };
    Ok(Edit::SetThread {
        test: name,
        thread: index,
        text,
    })
}

/// The edit that puts a part of the new version of a test. Errors: out of memory.
pub fn part_edit(alloc: Global, new: &Test, part: TestPart) -> Result<Edit, AllocError>
    ensures { IfOk result (λ e. IsPartEdit new.now.name (edit_of e)) }
{
    let test = Vec::from_slice(alloc, new.name.as_bytes())?;
    match part {
        TestPart::Init => Ok(Edit::SetInit {
            test,
            text: init_text(alloc, &new.init)?,
        }),
        TestPart::Thread(index) => thread_edit(alloc, test, new, index),
        TestPart::Condition => Ok(Edit::SetCond {
            test,
            text: print_condition(alloc, &new.condition)?,
        }),
        TestPart::Locations => Ok(Edit::SetLocations {
            test,
            text: locations_text(alloc, &new.observed)?,
        }),
    }
}
