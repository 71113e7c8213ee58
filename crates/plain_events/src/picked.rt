//! What a choice of indexes picks from lists of runs.

ghost use Rattle.std.specs.Prelude.{◌≡◌, ◌∷◌, ◌++◌, map, slice_get, option_to_list, IfOk, OnOk};
ghost use Rattle.plain_runs.specs.Runs.{run_as};
ghost use Rattle.plain_events.specs.Choices.{pick, lists_as};
ghost use Rattle.plain_events.specs.Combinations.{run_lists_as};

use plain_runs::run::Run;
use std::alloc::{AllocError, Global};

/// The run, once more. Errors: want of memory, as in all that follows.
pub fn copied_run<'a>(alloc: Global, run: &Run<'a>) -> Result<Run<'a>, AllocError>
    ensures { IfOk result (λ r. run_as r ≡ run_as run.now) }
{
    let instances = Vec::from_slice(alloc, &run.instances)?;
    Ok(Run {
        instances,
        end: run.end,
        faulted: run.faulted,
    })
}

// Puts the run at an index of a list, if there is one.
fn put_run<'a>(
    alloc: Global,
    picked: &mut Vec<Run<'a>>,
    list: &[Run<'a>],
    index: usize,
) -> Result<(), AllocError>
    ensures { OnOk result (map run_as picked.new.items
        ≡ map run_as picked.old.items ++ option_to_list (slice_get (map run_as list.now) index)) }
{
    if index >= list.len() {
        return Ok(());
    }
    let run = copied_run(alloc, &list[index])?;
    picked.push(run)?;
    Ok(())
}

// Puts the runs at an index of the first list and at those of the others.
#[cycle(picked)]
fn put_both<'a>(
    alloc: Global,
    picked: &mut Vec<Run<'a>>,
    list: &Vec<Run<'a>>,
    lists: &[Vec<Run<'a>>],
    index: usize,
    indexes: &[usize],
) -> Result<(), AllocError>
    ensures { OnOk result (map run_as picked.new.items ≡ map run_as picked.old.items
        ++ pick (map run_as list.now.items ∷ run_lists_as lists.now) (index ∷ indexes.now)) }
{
    put_run(alloc, picked, list, index)?;
    put_picked(alloc, picked, lists, indexes)?;
    Ok(())
}

// The same, if there is an index for each.
#[cycle(picked)]
fn put_behind<'a>(
    alloc: Global,
    picked: &mut Vec<Run<'a>>,
    list: &Vec<Run<'a>>,
    lists: &[Vec<Run<'a>>],
    indexes: &[usize],
) -> Result<(), AllocError>
    ensures { OnOk result (map run_as picked.new.items ≡ map run_as picked.old.items
        ++ pick (map run_as list.now.items ∷ run_lists_as lists.now) indexes.now) }
{
    match indexes.split_first() {
        Some((index, rest)) => put_both(alloc, picked, list, lists, *index, rest),
        None => Ok(()),
    }
}

// Puts the runs that a choice picks.
#[cycle(picked)]
fn put_picked<'a>(
    alloc: Global,
    picked: &mut Vec<Run<'a>>,
    lists: &[Vec<Run<'a>>],
    indexes: &[usize],
) -> Result<(), AllocError>
    ensures { OnOk result (map run_as picked.new.items
        ≡ map run_as picked.old.items ++ pick (run_lists_as lists.now) indexes.now) }
{
    match lists.split_first() {
        Some((list, rest)) => put_behind(alloc, picked, list, rest, indexes),
        None => Ok(()),
    }
}

/// The runs that a choice picks.
pub fn picked_runs<'a>(
    alloc: Global,
    lists: &[Vec<Run<'a>>],
    indexes: &[usize],
) -> Result<Vec<Run<'a>>, AllocError>
    ensures { IfOk result (λ v. map run_as v.items ≡ pick (run_lists_as lists.now) indexes.now) }
{
    let mut picked = Vec::new(alloc);
    put_picked(alloc, &mut picked, lists, indexes)?;
    Ok(picked)
}

/// The runs that choices pick.
pub fn all_picked<'a>(
    alloc: Global,
    lists: &[Vec<Run<'a>>],
    all: &[Vec<usize>],
) -> Result<Vec<Vec<Run<'a>>>, AllocError>
    ensures { IfOk result (λ v. run_lists_as v.items
        ≡ map (pick (run_lists_as lists.now)) (lists_as all.now)) }
{
    let mut combinations = Vec::new(alloc);
    for indexes in all {
        let runs = picked_runs(alloc, lists, indexes)?;
        combinations.push(runs)?;
    }
    Ok(combinations)
}
