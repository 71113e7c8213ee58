//! The files that words and lists ask for.

ghost use Rattle.std.specs.Prelude.{◌≡◌, ◌++◌, IfOk, IfErr, map, codes, decimal};
ghost use Rattle.std.specs.String.{string_bytes};
ghost use Rattle.path_lists.specs.Lists.{listed_by};
ghost use Rattle.path_lists.specs.Files as files;
ghost use Rattle.path_lists.specs.Files.{wanted_by, AreInnerFiles, IsInnerFault};

use crate::entry::{ListEntry, list_entries};
use itoa::Buffer;
use std::alloc::{AllocError, Global};

/// A file that is asked for.
#[derive(Drop)]
pub struct WantedFile {
    /// Its path.
    pub path: String,
    /// What is told of it before a reason: the path, behind the list and the line that name it
    /// where one does.
    pub label: String,
    /// Whether a list names it.
    pub is_listed: bool,
}

/// Why a list that a list names has no files.
#[derive(Debug, Drop)]
pub enum InnerListFault {
    /// It names a list.
    NamesList {
        /// The first line that does, from 1.
        line: u64,
    },
    /// Want of memory.
    OutOfMemory(AllocError),
}

/// The file of a word. Errors: want of memory.
pub fn file_of_word(alloc: Global, word: &str) -> Result<WantedFile, AllocError>
    ensures { IfOk result (λ f. wanted_by f ≡ files.word_file word.now) }
{
    Ok(WantedFile {
        path: String::from_str(alloc, word)?,
        label: String::from_str(alloc, word)?,
        is_listed: false,
    })
}

// The list, the line and the path.
fn place_told(alloc: Global, list: &str, line: u64, path: &str) -> Result<String, AllocError>
    ensures { IfOk result
        (λ s. string_bytes s ≡ list.now ++ codes ":" ++ decimal line ++ codes ": " ++ path.now) }
{
    let mut number = Buffer::new();
    let mut told = String::from_str(alloc, list)?;
    told.push_str(":")?;
    told.push_str(number.format(line))?;
    told.push_str(": ")?;
    told.push_str(path)?;
    Ok(told)
}

/// The file of a path of a list. Errors: want of memory.
pub fn file_of_entry(alloc: Global, list: &str, entry: ListEntry) -> Result<WantedFile, AllocError>
    ensures { IfOk result (λ f. wanted_by f ≡ files.listed_file list.now (listed_by entry)) }
{
    let label = place_told(alloc, list, entry.line, entry.path.as_str())?;
    Ok(WantedFile {
        path: entry.path,
        label,
        is_listed: true,
    })
}

fn files_of(
    alloc: Global,
    list: &str,
    entries: Vec<ListEntry>,
) -> Result<Vec<WantedFile>, AllocError>
    ensures { IfOk result (λ v. map wanted_by v.items
        ≡ files.listed_files list.now (map listed_by entries.items)) }
{
    let mut files = Vec::with_capacity(alloc, entries.len())?;
    for entry in entries {
        files.push(file_of_entry(alloc, list, entry)?)?;
    }
    Ok(files)
}

// The line of the first path that is that of a list.
fn first_list(entries: &[ListEntry]) -> Option<u64>
    ensures { result ≡ files.first_list (map listed_by entries.now) }
{
    for entry in entries {
        if entry.is_list {
            return Some(entry.line);
        }
    }
    None
}

/// The files of a list that a list names, in order. Errors: it names a list, or want of memory.
pub fn inner_files(alloc: Global, list: &str, text: &str) -> Result<Vec<WantedFile>, InnerListFault>
    ensures files { IfOk result (λ v. AreInnerFiles list.now text.now (map wanted_by v.items)) }
    ensures refusal { IfErr result (IsInnerFault list.now text.now) }
{
    let entries = match list_entries(alloc, list, text) {
        Ok(entries) => entries,
        Err(e) => return Err(InnerListFault::OutOfMemory(e)),
    };
    if let Some(line) = first_list(&entries) {
        return Err(InnerListFault::NamesList { line });
    }
    match files_of(alloc, list, entries) {
        Ok(files) => Ok(files),
        Err(e) => Err(InnerListFault::OutOfMemory(e)),
    }
}
