//! The paths of one list.

ghost use Rattle.std.specs.Prelude.{◌≡◌, ◌++◌, IfOk, OnOk, map};
ghost use Rattle.std.specs.String.{string_bytes};
ghost use Rattle.path_lists.specs.Lists as lists;

use std::alloc::{AllocError, Global};

/// A path of a list.
#[derive(Debug, Drop)]
pub struct ListEntry {
    /// The line of the list, from 1.
    pub line: u64,
    /// Whether it is that of a list in turn.
    pub is_list: bool,
    /// The path, as one from the folder of the list.
    pub path: String,
}

// The part of a path up to its last slash.
fn folder(path: &str) -> &str
    ensures { result.now ≡ lists.folder path.now }
{
    match path.rfind('/') {
        Some(index) => &path[..index + 1],
        None => "",
    }
}

// A path of a list, from the folder of that list. One that begins with a slash stays as it is.
fn located(alloc: Global, list: &str, path: &str) -> Result<String, AllocError>
    ensures { IfOk result (λ s. string_bytes s ≡ lists.located list.now path.now) }
{
    if path.starts_with('/') {
        return String::from_str(alloc, path);
    }
    let mut located = String::from_str(alloc, folder(list))?;
    located.push_str(path)?;
    Ok(located)
}

fn push_path(
    alloc: Global,
    entries: &mut Vec<ListEntry>,
    list: &str,
    line: u64,
    is_list: bool,
    path: &str,
) -> Result<(), AllocError>
    ensures { OnOk result (map lists.listed_by entries.new.items
        ≡ map lists.listed_by entries.old.items
        ++ lists.one_path line is_list (lists.located list.now path.now)) }
{
    let path = located(alloc, list, path)?;
    entries.push(ListEntry {
        line,
        is_list,
        path,
    })?;
    Ok(())
}

// Adds what a line names, which is this word without the blanks around it.
fn push_word(
    alloc: Global,
    entries: &mut Vec<ListEntry>,
    list: &str,
    line: u64,
    word: &str,
) -> Result<(), AllocError>
    ensures { OnOk result (map lists.listed_by entries.new.items
        ≡ map lists.listed_by entries.old.items ++ lists.paths_of_word list.now line word.now) }
{
    if word.is_empty() || word.starts_with('#') {
        return Ok(());
    }
    match word.strip_prefix('@') {
        Some(path) => push_path(alloc, entries, list, line, true, path),
        None => push_path(alloc, entries, list, line, false, word),
    }
}

/// The paths of a list, in order: one stands on a line, without the blanks around it, and goes from
/// the folder of the list. A line that is empty or begins with `#` has none. A path behind `@` is
/// that of a list. Errors: want of memory.
pub fn list_entries(alloc: Global, list: &str, text: &str) -> Result<Vec<ListEntry>, AllocError>
    ensures { IfOk result
        (λ v. map lists.listed_by v.items ≡ lists.listed_paths list.now text.now) }
{
    let mut entries = Vec::new(alloc);
    let mut line: u64 = 0;
    for text in text.split('\n') {
        line = line.saturating_add(1);
        push_word(alloc, &mut entries, list, line, text.trim())?;
    }
    Ok(entries)
}
