//! Runs of equal neighbours, and where they end.
ghost use Rattle.std.specs.Prelude.{◌≡◌, ◌<◌, ◌≤◌, length, set, slice_index, IsTrue};
ghost use Rattle.relation_columns.specs.Runs.{AreEndsRising, last_end, run_start};
ghost use Rattle.relation_columns.specs.Storage.{run_ends, run_values};

/// Where a reader of a column looks first. Any cursor will do: a wrong one costs time alone.
#[derive(Clone, Copy)]
pub struct Cursor {
    pub(crate) run: usize,
}

impl Cursor {
    /// A cursor at the first run.
    pub fn new() -> Cursor {
        Cursor { run: 0 }
    }
}

/// Neighbouring candidates that share a value. The first of them is the one at which the run before
/// ends.
#[derive(Clone, Copy)]
pub(crate) struct Run<V> {
    /// The candidate after the last of them.
    pub(crate) end: usize,
    pub(crate) value: V,
}

/// Where the last run ends.
pub(crate) fn end_of<V>(runs: &[Run<V>]) -> usize
    ensures { result ≡ last_end 0 (run_ends runs.now) }
{
    let count = runs.len();
    if count == 0 {
        0
    } else {
        end_at(runs, count - 1)
    }
}

/// Where a run ends.
pub(crate) fn end_at<V>(runs: &[Run<V>], run: usize) -> usize
    requires { run < length runs.now }
    ensures { result ≡ slice_index (run_ends runs.now) run }
{
    runs[run].end
}

/// Makes a run end elsewhere.
pub(crate) fn set_end<V>(runs: &mut [Run<V>], run: usize, end: usize)
    requires { run < length runs.old }
    ensures ends { run_ends runs.new ≡ set (run_ends runs.old) run end }
    ensures values { run_values runs.new ≡ run_values runs.old }
    ensures long { length runs.new ≡ length runs.old }
{
    runs[run].end = end;
}

/// The run that a candidate is in. It looks at one run first, and then at the one that the
/// candidate would be in if all were equally long.
pub(crate) fn run_at<V>(runs: &[Run<V>], first: usize, at: usize) -> usize
    requires rising { AreEndsRising 0 (run_ends runs.now) }
    requires inside { at < last_end 0 (run_ends runs.now) }
    ensures run { result < length runs.now }
    ensures from_start { run_start 0 (run_ends runs.now) result ≤ at }
    ensures open { at < slice_index (run_ends runs.now) result }
{
    if is_in(runs, first, at) {
        return first;
    }
    let even = even_run(runs, at);
    if is_in(runs, even, at) {
        return even;
    }
    let mut run = first_run(runs, first, at);
    while end_at(runs, run) <= at {
        run += 1;
    }
    run
}

/// Whether a candidate is in a run, if there is one of this number.
fn is_in<V>(runs: &[Run<V>], run: usize, at: usize) -> bool
    ensures { IsTrue result
        → (run < length runs.now) × (run_start 0 (run_ends runs.now) run ≤ at)
        × (at < slice_index (run_ends runs.now) run) }
{
    if runs.len() <= run || end_at(runs, run) <= at {
        return false;
    }
    begin_of(runs, run) <= at
}

/// Where a run begins.
fn begin_of<V>(runs: &[Run<V>], run: usize) -> usize
    requires { run < length runs.now }
    ensures { result ≡ run_start 0 (run_ends runs.now) run }
{
    if run == 0 { 0 } else { end_at(runs, run - 1) }
}

/// The number of the run that a candidate would be in if all runs were equally long.
fn even_run<V>(runs: &[Run<V>], at: usize) -> usize
    requires { 0 < last_end 0 (run_ends runs.now) }
{
    match at.checked_mul(runs.len()) {
        Some(product) => product / end_of(runs),
        None => 0,
    }
}

/// A run that begins at a candidate or below it: the one proposed, if it does.
fn first_run<V>(runs: &[Run<V>], first: usize, at: usize) -> usize
    requires { 0 < length runs.now }
    ensures run { result < length runs.now }
    ensures from_start { run_start 0 (run_ends runs.now) result ≤ at }
{
    if 0 < first && first < runs.len() && end_at(runs, first - 1) <= at {
        first
    } else {
        found_run(runs, at)
    }
}

/// The last run that begins at a candidate or below it, by halving.
fn found_run<V>(runs: &[Run<V>], at: usize) -> usize
    requires { 0 < length runs.now }
    ensures run { result < length runs.now }
    ensures from_start { run_start 0 (run_ends runs.now) result ≤ at }
{
    let mut low = 0;
    let mut high = runs.len();
    'halves: while low + 1 < high {
        let middle = low + (high - low) / 2;
        if end_at(runs, middle - 1) <= at {
            low = middle;
        } else {
            high = middle;
        }
    }
    low
}
