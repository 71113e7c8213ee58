//! How many events and loads a test has.

ghost use Rattle.std.specs.Prelude.{◌≡◌, count_by, IfSome};
ghost use Rattle.meaning.specs.Dependencies as dependencies;
ghost use Rattle.plain_runs.specs.Counts as counts;
ghost use Rattle.plain_runs.specs.Counts.{is_line_counted, line_count};

use plain_machine::instruction::{is_fence, is_load, is_store};
use text_values::{Instruction, Step, Thread};

/// What is counted.
#[derive(Clone, Copy)]
pub enum Counted {
    /// Loads.
    Loads,
    /// Loads, stores and fences.
    Events,
}

/// Whether an instruction is an event: a load, a store or a fence.
pub fn is_event(instruction: &Instruction) -> bool
    ensures { result ≡ dependencies.is_event instruction.now }
{
    is_load(instruction) || is_store(instruction) || is_fence(instruction)
}

fn is_counted(counted: Counted, instruction: &Instruction) -> bool
    ensures { result ≡ counts.is_counted counted instruction.now }
{
    match counted {
        Counted::Loads => is_load(instruction),
        Counted::Events => is_event(instruction),
    }
}

fn is_line(counted: Counted, line: &Step) -> bool
    ensures { result ≡ is_line_counted counted line.now }
{
    match line {
        Step::Label(_) => false,
        Step::Instruction(instruction) => is_counted(counted, instruction),
    }
}

fn count_in(counted: Counted, lines: &[Step]) -> usize
    ensures { result ≡ count_by (is_line_counted counted) lines.now }
{
    lines.iter().filter(|line| is_line(counted, line)).count()
}

/// How many instructions of the text are counted; nothing if no `usize` is so large.
pub fn count(counted: Counted, threads: &[Thread]) -> Option<usize>
    ensures { IfSome result (λ n. n ≡ line_count counted threads.now) }
{
    let mut total: usize = 0;
    for thread in threads {
        let more = count_in(counted, &thread.steps);
        total = total.checked_add(more)?;
    }
    Some(total)
}
