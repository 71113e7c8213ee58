//! The lines of `--json`, of a difference of two models.

ghost use Rattle.std.specs.Prelude.{◌≡◌, ◌++◌, OnOk, IfOk, map, filter};
ghost use Rattle.outcome_texts.specs.Differences.{pair_of, has_other_count, is_told_apart};
ghost use Rattle.outcome_texts.specs.Cells.{cell_of, cell_field};
ghost use Rattle.outcome_lines.specs.Records.{test_of};
ghost use Rattle.outcome_lines.specs.Json.{array_text, counts_member, counts_object, pair_array, told_states, pair_line, json_pair_lines};

use crate::json_parts::{bool_text, put_refused_line, put_test_front};
use crate::pair::{model_at, pair_in};
use crate::record::TestResult;
use escaped_texts::{put_number, put_string};
use outcome_texts::{
    SharedState, Shown, TestPair, cells_differ, has_other_count, put_cell, shared_states,
};
use std::alloc::{AllocError, Global};
use text_values::{put_between, put_bytes};

#[tactic(auto, unfolding(crate::specs::Json::pair_array))]
fn put_pair_array(text: &mut Vec<u8>, first: &[u8], second: &[u8]) -> Result<(), AllocError>
    ensures { OnOk result (text.new.items ≡ text.old.items ++ pair_array first.now second.now) }
{
    put_bytes(text, b"[")?;
    put_string(text, first)?;
    put_bytes(text, b",")?;
    put_string(text, second)?;
    put_bytes(text, b"]")
}

fn cell_text(alloc: Global, cell: Shown<'_>) -> Result<Vec<u8>, AllocError>
    ensures { IfOk result (λ v. v.items ≡ cell_field (cell_of cell.entry)) }
{
    let mut text = Vec::new(alloc);
    put_cell(&mut text, cell)?;
    Ok(text)
}

#[tactic(auto, unfolding(crate::specs::Json::counts_member))]
fn put_counts_member(text: &mut Vec<u8>, first: u64, second: u64) -> Result<(), AllocError>
    ensures { OnOk result (text.new.items ≡ text.old.items ++ counts_member first second) }
{
    put_bytes(text, b",\"counts\":[")?;
    put_number(text, first)?;
    put_bytes(text, b",")?;
    put_number(text, second)?;
    put_bytes(text, b"]")
}

#[tactic(auto, unfolding(crate::specs::Json::counts_object))]
fn put_counts(text: &mut Vec<u8>, state: &SharedState<'_>) -> Result<(), AllocError>
    ensures { OnOk result (text.new.items ≡ text.old.items ++ counts_object state.now) }
{
    put_bytes(text, b"{\"state\":")?;
    put_string(text, state.text)?;
    put_counts_member(text, state.first, state.second)?;
    put_bytes(text, b"}")
}

// The states whose counts differ, in brackets.
#[tactic(auto, unfolding(crate::specs::Json::array_text))]
fn put_each_counts(text: &mut Vec<u8>, states: &[SharedState<'_>]) -> Result<(), AllocError>
    ensures { OnOk result (text.new.items
        ≡ text.old.items ++ array_text (map counts_object (filter has_other_count states.now))) }
{
    put_bytes(text, b"[")?;
    let mut index = 0usize;
    for state in states {
        if has_other_count(state) {
            put_between(text, b",", index)?;
            put_counts(text, state)?;
            index += 1;
        }
    }
    put_bytes(text, b"]")
}

// The states whose counts differ, where the cells do.
#[tactic(auto, unfolding(crate::specs::Json::array_text))]
fn put_told_states(
    alloc: Global,
    text: &mut Vec<u8>,
    differ: bool,
    pair: &TestPair<'_>,
) -> Result<(), AllocError>
    ensures { OnOk result (text.new.items
        ≡ text.old.items
        ++ array_text (map counts_object (told_states differ (pair_of pair.now)))) }
{
    if !differ {
        return put_bytes(text, b"[]");
    }
    let states = shared_states(alloc, pair.first, pair.second)?;
    put_each_counts(text, &states)
}

fn put_cells(alloc: Global, text: &mut Vec<u8>, pair: &TestPair<'_>) -> Result<(), AllocError>
    ensures { OnOk result (text.new.items
        ≡ text.old.items ++ pair_array (cell_field (cell_of pair.now.first))
        (cell_field (cell_of pair.now.second))) }
{
    let first = cell_text(alloc, pair.first)?;
    let second = cell_text(alloc, pair.second)?;
    put_pair_array(text, &first, &second)
}

#[tactic(auto, unfolding(crate::specs::Json::pair_line))]
fn put_pair(
    alloc: Global,
    text: &mut Vec<u8>,
    first: &[u8],
    second: &[u8],
    path: &[u8],
    pair: &TestPair<'_>,
) -> Result<(), AllocError>
    ensures { let p = pair_of pair.now in
        OnOk result (text.new.items
        ≡ text.old.items ++ pair_line first.now second.now path.now (is_told_apart p) p) }
{
    let differ = cells_differ(alloc, pair.first, pair.second)?;
    put_test_front(text, path, pair.name)?;
    put_bytes(text, b",\"models\":")?;
    put_pair_array(text, first, second)?;
    put_bytes(text, b",\"differ\":")?;
    put_bytes(text, bool_text(differ))?;
    put_bytes(text, b",\"fields\":")?;
    put_cells(alloc, text, pair)?;
    put_bytes(text, b",\"states\":")?;
    put_told_states(alloc, text, differ, pair)?;
    put_bytes(text, b"}\n")
}

/// Appends the line of a test under the first two models: whether their cells differ, both cells,
/// and each state whose counts differ; or the line of a refused text. Errors: want of memory.
pub fn put_pair_json(
    alloc: Global,
    text: &mut Vec<u8>,
    test: &TestResult<'_>,
) -> Result<(), AllocError>
    ensures { OnOk result (text.new.items ≡ text.old.items ++ json_pair_lines (test_of test.now)) }
{
    match test {
        TestResult::Refused(refusal) => put_refused_line(text, refusal),
        TestResult::Tested(path, name, outcomes) => {
            let first = model_at(outcomes, 0);
            let second = model_at(outcomes, 1);
            put_pair(alloc, text, first, second, path, &pair_in(name, outcomes))
        }
    }
}
