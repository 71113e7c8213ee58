//! Puts in place what was made for an edit. It takes no memory.

ghost use Rattle.std.specs.Prelude.{◌≡◌, ◌+◌, ◌<◌, ◌≤◌, map, remove, vec_len, vec_capacity};
ghost use Rattle.bench_texts.specs.BenchTexts.{put_at};
ghost use Rattle.bench_parts.specs.Models.{raised_model};
ghost use Rattle.bench_edits.specs.Edited.{HasRoomForParts, HasTestRoom, PutsTest, DropsTest, PutsModels, Commits};

use crate::edited::{EditedParts, ModelParts};
use bench_nodes::{ModelRow, TestRow, are_rising};
use bench_parts::{Parts, raise_items, raise_row, raised_model};
use std::mem::{drop, replace};
use text_values::Name;

fn raise_models(rows: &mut [ModelRow], last: u64, number: u64)
    ensures { rows.new ≡ map (raised_model last number) rows.old }
{
    for row in rows.iter_mut() {
        *row = raised_model(last, number, *row);
    }
}

// A row takes an index.
#[tactic(auto, using(crate::proofs::Making::edited_lists))]
fn put_row(rows: &mut Vec<TestRow>, at: usize, row: TestRow)
    requires { vec_len rows.old < vec_capacity rows.old }
    ensures rows { rows.new.items ≡ put_at at row rows.old.items }
    ensures count { vec_len rows.new ≤ vec_len rows.old + 1 }
{
    if at < rows.len() {
        drop(replace(&mut rows[at], row));
    } else {
        let _ = rows.push(row);
    }
}

// The locations of a test take an index.
#[tactic(auto, using(crate::proofs::Making::edited_lists))]
fn put_locations(all: &mut Vec<Vec<Name>>, at: usize, locations: Vec<Name>)
    requires { vec_len all.old < vec_capacity all.old }
    ensures { all.new.items ≡ put_at at locations all.old.items }
{
    if at < all.len() {
        drop(replace(&mut all[at], locations));
    } else {
        let _ = all.push(locations);
    }
}

// A test takes an index.
fn put_test(parts: &mut Parts, at: usize, row: TestRow, locations: Vec<Name>, number: u64)
    requires { HasTestRoom parts.old }
    ensures puts { PutsTest parts.old number at row locations parts.new }
    ensures last { parts.new.last ≡ number }
{
    let mut row = row;
    raise_row(&mut row, parts.last, number);
    parts.table.is_rising = false;
    put_row(&mut parts.table.tests, at, row);
    parts.table.is_rising = are_rising(&parts.table.tests);
    put_locations(&mut parts.locations, at, locations);
    parts.last = number;
}

#[tactic(auto, using(crate::proofs::Making::edited_lists))]
fn drop_row(rows: &mut Vec<TestRow>, at: usize)
    ensures rows { rows.new.items ≡ remove rows.old.items at }
    ensures count { vec_len rows.new ≤ vec_len rows.old }
{
    if at < rows.len() {
        drop(rows.remove(at));
    }
}

#[tactic(auto, using(crate::proofs::Making::edited_lists))]
fn drop_locations(all: &mut Vec<Vec<Name>>, at: usize)
    ensures { all.new.items ≡ remove all.old.items at }
{
    if at < all.len() {
        drop(all.remove(at));
    }
}

// A test goes.
fn drop_test(parts: &mut Parts, at: usize, number: u64)
    ensures drops { DropsTest parts.old at parts.new }
    ensures last { parts.new.last ≡ number }
{
    parts.table.is_rising = false;
    drop_row(&mut parts.table.tests, at);
    parts.table.is_rising = are_rising(&parts.table.tests);
    drop_locations(&mut parts.locations, at);
    parts.last = number;
}

// The models have these parts.
fn put_models(parts: &mut Parts, made: ModelParts, number: u64)
    ensures puts { PutsModels parts.old number made parts.new }
    ensures last { parts.new.last ≡ number }
{
    let ModelParts {
        mut rows,
        faults,
        mut items,
        item_guesses,
        slots,
        places,
    } = made;
    raise_models(&mut rows, parts.last, number);
    raise_items(&mut items.rows, parts.last, number);
    parts.table.models = rows;
    parts.table.items.clear();
    parts.table.item_guesses = item_guesses;
    parts.table.items = items.rows;
    parts.table.places.are_listed = false;
    parts.table.slots = slots;
    parts.table.places = places;
    parts.faults = faults;
    parts.roles = items.roles;
    parts.kinds = items.kinds;
    parts.last = number;
}

/// Puts an edit in place that was made for these parts, under its number. It takes no memory.
pub fn commit_parts(parts: &mut Parts, edited: EditedParts, number: u64)
    requires { HasRoomForParts parts.old edited }
    ensures { Commits parts.old number edited parts.new }
{
    match edited {
        EditedParts::PutTest { at, row, locations } => {
            put_test(parts, at, row, locations, number)
        }
        EditedParts::DropTest { at } => drop_test(parts, at, number),
        EditedParts::Models(made) => put_models(parts, made, number),
    }
}
