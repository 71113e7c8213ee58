//! What is written of the tests.

ghost use Rattle.std.specs.Prelude.{◌≡◌, ◌≢◌, ◌++◌, [], map, get_or, IfOk, OnOk, IfSome, IfNone};
ghost use Rattle.std.specs.List.{AllByRecursion as Each};
ghost use mathlib.Core.List.{IsPrefix};
ghost use Rattle.outcome_texts.specs.Cells.{cell_of, Open};
ghost use Rattle.bench_texts.specs.Held.{texts_of};
ghost use Rattle.board.specs.Contents.{cell_named};
ghost use Rattle.board.specs.Legal.{IsLegal};
ghost use Rattle.board.specs.Operations.{board_after};
ghost use Rattle.watch_run.specs.Lines.{test_table, behind_line, AreLinesOf, changed_line, changed_lines, jobs_line};
ghost use Rattle.watch_run.specs.Boards.{lists_of, shown_cells, AreCellsClosed, HasOpenCell, shown_line, shown_line_of, IsClosedBy, IsOpenBy, shown_lines, HasOpenLine, AreOwnLines, KnowsItsTexts};

use crate::author::Author;
use crate::watched::Watched;
use bench_instance::{StampedTexts, edit_count_in, newest_view, result_in};
use desk::{Naming, View, Viewer};
use litmus_ppc::Name;
use outcome_texts::{Shown as Cell, TestRow, table_text};
use std::alloc::{AllocError, Global};
use text_values::{line_length, put_bytes, put_decimal};

// The table of one test under these models.
fn test_table<'x>(
    alloc: Global,
    models: &[Name],
    name: &'x [u8],
    cells: Vec<Cell<'x>>,
) -> Result<Vec<u8>, AllocError>
    ensures { IfOk result (λ v. v.items
        ≡ test_table models.now name.now (map cell_of cells.entry.items)) }
{
    let mut rows = Vec::new(alloc);
    rows.push(TestRow { name, cells })?;
    table_text(alloc, models, &rows)
}

// What stands behind the first line.
fn behind_line(text: &[u8]) -> &[u8]
    ensures { result.now ≡ behind_line text.now }
{
    let length = line_length(text);
    if length < text.len() {
        &text[length + 1..]
    } else {
        &text[length..]
    }
}

// The cell of a test under a model, or none where it is open.
fn cell_now<'v, J: Naming>(
    view: &'v View<J, StampedTexts>,
    name: &[u8],
    model: &[u8],
) -> Option<Cell<'v>>
    requires { IsLegal view.now }
    ensures cell { IfSome result (λ c.
        cell_of c ≡ cell_named (board_after view.now) name.now model.now) }
    ensures closed { IfSome result (λ c.
        cell_named (board_after view.now) name.now model.now ≢ Open) }
    ensures waits { IfNone result (cell_named (board_after view.now) name.now model.now ≡ Open) }
{
    match result_in(view, name, model) {
        Cell::Open => None,
        cell => Some(cell),
    }
}

// The cells of a test under these models, or none where one is open.
fn cells_now<'v, J: Naming>(
    alloc: Global,
    view: &'v View<J, StampedTexts>,
    name: &[u8],
    models: &[Name],
) -> Result<Option<Vec<Cell<'v>>>, AllocError>
    requires { IsLegal view.now }
    ensures cells { IfOk result (λ o. IfSome o (λ v.
        map cell_of v.items ≡ shown_cells view.now name.now models.now)) }
    ensures closed { IfOk result (λ o. IfSome o (λ v.
        AreCellsClosed view.now name.now models.now)) }
    ensures waits { IfOk result (λ o. IfNone o (HasOpenCell view.now name.now models.now)) }
{
    let mut cells = Vec::with_capacity(alloc, models.len())?;
    for model in models {
        match cell_now(view, name, model.as_bytes()) {
            Some(cell) => cells.push(cell)?,
            None => return Ok(None),
        }
    }
    Ok(Some(cells))
}

/// The line of a test, as in a table of it alone, or none where a cell is open. Errors: out of
/// memory.
pub fn test_line<J: Naming>(
    alloc: Global,
    view: &View<J, StampedTexts>,
    models: &[Name],
    name: &[u8],
) -> Result<Option<Vec<u8>>, AllocError>
    requires { IsLegal view.now }
    ensures line { IfOk result (λ o.
        IfSome o (λ v. v.items ≡ shown_line view.now models.now name.now)) }
    ensures closed { IfOk result (λ o.
        IfSome o (λ v. AreCellsClosed view.now name.now models.now)) }
    ensures waits { IfOk result (λ o. IfNone o (HasOpenCell view.now name.now models.now)) }
{
    match cells_now(alloc, view, name, models)? {
        Some(cells) => {
            let table = test_table(alloc, models, name, cells)?;
            Ok(Some(Vec::from_slice(alloc, behind_line(&table))?))
        }
        None => Ok(None),
    }
}

// The line of the test that a file holds, which is empty where no version was accepted, or none
// where a cell is open.
fn line_now<J: Naming>(
    alloc: Global,
    view: &View<J, StampedTexts>,
    models: &[Name],
    name: &Option<Name>,
) -> Result<Option<Vec<u8>>, AllocError>
    requires { IsLegal view.now }
    ensures line { IfOk result (λ o.
        IfSome o (λ v. v.items ≡ shown_line_of view.now models.now name.now)) }
    ensures closed { IfOk result (λ o.
        IfSome o (λ v. IsClosedBy view.now models.now name.now)) }
    ensures waits { IfOk result (λ o. IfNone o (IsOpenBy view.now models.now name.now)) }
{
    match name {
        Some(name) => test_line(alloc, view, models, name.as_bytes()),
        None => Ok(Some(Vec::new(alloc))),
    }
}

// The line of each of these files, or none where a cell is open.
fn lines_now<J: Naming>(
    alloc: Global,
    view: &View<J, StampedTexts>,
    models: &[Name],
    names: &[Option<Name>],
) -> Result<Option<Vec<Vec<u8>>>, AllocError>
    requires { IsLegal view.now }
    ensures lines { IfOk result (λ o.
        IfSome o (λ v. lists_of v.items ≡ shown_lines view.now models.now names.now)) }
    ensures closed { IfOk result (λ o.
        IfSome o (λ v. Each (IsClosedBy view.now models.now) names.now)) }
    ensures waits { IfOk result (λ o. IfNone o (HasOpenLine view.now models.now names.now)) }
{
    let mut lines = Vec::with_capacity(alloc, names.len())?;
    for name in names {
        match line_now(alloc, view, models, name)? {
            Some(line) => lines.push(line)?,
            None => return Ok(None),
        }
    }
    Ok(Some(lines))
}

/// What is to be read of the board: the lines of the tests under the models of these names, where
/// it counts so many edits.
#[derive(Clone, Copy)]
pub struct Asked<'p> {
    /// Where the lines are made.
    pub alloc: Global,
    /// The names of the models.
    pub models: &'p [Name],
    /// Of the file of each test the name of the test that it holds.
    pub names: &'p [Option<Name>],
    /// How many edits were made.
    pub made: u64,
}

/// Reads the board that was published last: the lines, or none where a cell is open. The viewer
/// comes back, and has seen the operations of that board. Errors: out of memory, also where there
/// are edits of someone else.
pub fn read_board<'p, J: Naming>(
    viewer: Viewer<J, StampedTexts>,
    asked: Asked<'p>,
) -> (
    Viewer<J, StampedTexts>,
    Result<Option<Vec<Vec<u8>>>, AllocError>,
)
    ensures begins { IsPrefix viewer result.0 }
    ensures lines { IfOk result.1 (λ o. IfSome o (λ v.
        AreOwnLines result.0 asked.entry.made asked.entry.models.now asked.entry.names.now
        (lists_of v.items))) }
    ensures waits { IfOk result.1 (λ o. IfNone o
        (HasOpenLine result.0 asked.entry.models.now asked.entry.names.now)) }
{
    match newest_view(viewer) {
        Ok(view) => {
            if edit_count_in(&view) != asked.made {
                return (view.leave(), Err(AllocError));
            }
            let lines = lines_now(asked.alloc, &view, asked.models, asked.names);
            (view.leave(), lines)
        }
        Err(viewer) => (viewer, Err(AllocError)),
    }
}

// Appends a line where it differs from the last that was written of its file.
fn put_changed_line(text: &mut Vec<u8>, last: &[u8], now: &[u8]) -> Result<(), AllocError>
    ensures { OnOk result (text.new.items ≡ text.old.items ++ changed_line last.now now.now) }
{
    if now == last {
        return Ok(());
    }
    put_bytes(text, now)
}

// The last line that was written of the file of that index.
fn last_line(lasts: &[Vec<u8>], index: usize) -> &[u8]
    ensures { result.now ≡ get_or (lists_of lasts.now) index [] }
{
    match lasts.get(index) {
        Some(last) => last.as_slice(),
        None => &[],
    }
}

// Appends those of the lines that differ from the last that were written.
fn put_changed_lines(
    text: &mut Vec<u8>,
    lasts: &[Vec<u8>],
    nows: &[Vec<u8>],
) -> Result<(), AllocError>
    ensures { OnOk result (text.new.items
        ≡ text.old.items ++ changed_lines (lists_of lasts.now) (lists_of nows.now)) }
{
    for index in 0..nows.len() {
        put_changed_line(text, last_line(lasts, index), &nows[index])?;
    }
    Ok(())
}

// Appends the number of jobs.
fn put_jobs(text: &mut Vec<u8>, jobs: u64) -> Result<(), AllocError>
    ensures { OnOk result (text.new.items ≡ text.old.items ++ jobs_line jobs) }
{
    put_bytes(text, b"jobs ")?;
    put_decimal(text, jobs)?;
    put_bytes(text, b"\n")
}

/// Appends those of the lines that differ from the last that were written, and the number of jobs.
/// Errors: out of memory.
pub fn put_answer(
    text: &mut Vec<u8>,
    lasts: &[Vec<u8>],
    nows: &[Vec<u8>],
    jobs: u64,
) -> Result<(), AllocError>
    ensures { OnOk result (text.new.items ≡ text.old.items
        ++ changed_lines (lists_of lasts.now) (lists_of nows.now) ++ jobs_line jobs) }
{
    put_changed_lines(text, lasts, nows)?;
    put_jobs(text, jobs)
}

impl<A: Author> Watched<A> {
    /// The lines of all files under these models, from the board that was published last, or none
    /// where a cell is open. Errors: out of memory.
    pub fn lines_now(
        &mut self,
        alloc: Global,
        models: &[Name],
    ) -> Result<Option<Vec<Vec<u8>>>, AllocError>
        requires ready { KnowsItsTexts A.seen A.counts self.old }
        ensures ready { KnowsItsTexts A.seen A.counts self.new }
        ensures same { A.counts self.new.author ≡ A.counts self.old.author }
        ensures texts { self.new.texts ≡ self.old.texts }
        ensures names { self.new.names ≡ self.old.names }
        ensures lines { IfOk result (λ o. IfSome o (λ v.
            AreLinesOf models.now (texts_of self.new.texts) self.new.names.items
            (lists_of v.items))) }
        ensures waits { IfOk result (λ o. IfNone o
            (HasOpenLine (A.seen self.new.author) models.now self.new.names.items)) }
    {
        self.author.lines(alloc, models, self.names.as_slice())
    }
}
