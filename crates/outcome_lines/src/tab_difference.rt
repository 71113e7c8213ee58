//! The lines of `--tab`, of a difference of two models.

ghost use Rattle.std.specs.Prelude.{◌≡◌, ◌++◌, OnOk};
ghost use Rattle.std.specs.List.{flat_map};
ghost use Rattle.outcome_texts.specs.Differences.{pair_of, has_other_count, is_told_apart};
ghost use Rattle.outcome_lines.specs.Records.{test_of};
ghost use Rattle.outcome_lines.specs.Tab.{same_line, differ_line, counts_fields, counts_line, other_counts_line, told_lines, tab_pair_lines};

use crate::pair::pair_in;
use crate::record::TestResult;
use crate::tab::{put_refused_line, put_two_fields};
use escaped_texts::put_field;
use outcome_texts::{
    SharedState, TestPair, cells_differ, has_other_count, put_cell, shared_states,
};
use std::alloc::{AllocError, Global};
use text_values::{put_bytes, put_decimal};

#[tactic(auto, unfolding(crate::specs::Tab::same_line))]
fn put_same(text: &mut Vec<u8>, path: &[u8], test: &[u8]) -> Result<(), AllocError>
    ensures { OnOk result (text.new.items ≡ text.old.items ++ same_line path.now test.now) }
{
    put_two_fields(text, path, test)?;
    put_bytes(text, b"\tsame\n")
}

#[tactic(auto, unfolding(crate::specs::Tab::differ_line))]
fn put_differ(text: &mut Vec<u8>, path: &[u8], pair: &TestPair<'_>) -> Result<(), AllocError>
    ensures { OnOk result (text.new.items
        ≡ text.old.items ++ differ_line path.now (pair_of pair.now)) }
{
    put_two_fields(text, path, pair.name)?;
    put_bytes(text, b"\tdiffer\t")?;
    put_cell(text, pair.first)?;
    put_bytes(text, b"\t")?;
    put_cell(text, pair.second)?;
    put_bytes(text, b"\n")
}

#[tactic(auto, unfolding(crate::specs::Tab::counts_fields))]
fn put_counts_fields(text: &mut Vec<u8>, first: u64, second: u64) -> Result<(), AllocError>
    ensures { OnOk result (text.new.items ≡ text.old.items ++ counts_fields first second) }
{
    put_bytes(text, b"\tstate\t")?;
    put_decimal(text, first)?;
    put_bytes(text, b"\t")?;
    put_decimal(text, second)?;
    put_bytes(text, b"\t")
}

#[tactic(auto, unfolding(crate::specs::Tab::counts_line))]
fn put_counts(
    text: &mut Vec<u8>,
    path: &[u8],
    test: &[u8],
    state: &SharedState<'_>,
) -> Result<(), AllocError>
    ensures { OnOk result (text.new.items
        ≡ text.old.items ++ counts_line path.now test.now state.now) }
{
    put_two_fields(text, path, test)?;
    put_counts_fields(text, state.first, state.second)?;
    put_field(text, state.text)?;
    put_bytes(text, b"\n")
}

fn put_each_counts(
    text: &mut Vec<u8>,
    path: &[u8],
    test: &[u8],
    states: &[SharedState<'_>],
) -> Result<(), AllocError>
    ensures { OnOk result (text.new.items
        ≡ text.old.items
        ++ flat_map (λ s. other_counts_line path.now test.now (has_other_count s) s)
        states.now) }
{
    for state in states {
        if has_other_count(state) {
            put_counts(text, path, test, state)?;
        }
    }
    Ok(())
}

fn put_pair(
    alloc: Global,
    text: &mut Vec<u8>,
    path: &[u8],
    pair: &TestPair<'_>,
) -> Result<(), AllocError>
    ensures { let p = pair_of pair.now in
        OnOk result (text.new.items ≡ text.old.items ++ told_lines path.now (is_told_apart p) p) }
{
    if !cells_differ(alloc, pair.first, pair.second)? {
        return put_same(text, path, pair.name);
    }
    put_differ(text, path, pair)?;
    let states = shared_states(alloc, pair.first, pair.second)?;
    put_each_counts(text, path, pair.name, &states)
}

/// Appends the lines of a test under the first two models: `same`, or `differ` with both cells and
/// then each state whose counts differ; or the line of a refused text. Errors: want of memory.
pub fn put_pair_tab(
    alloc: Global,
    text: &mut Vec<u8>,
    test: &TestResult<'_>,
) -> Result<(), AllocError>
    ensures { OnOk result (text.new.items ≡ text.old.items ++ tab_pair_lines (test_of test.now)) }
{
    match test {
        TestResult::Refused(refusal) => put_refused_line(text, refusal),
        TestResult::Tested(path, name, outcomes) => {
            put_pair(alloc, text, path, &pair_in(name, outcomes))
        }
    }
}
