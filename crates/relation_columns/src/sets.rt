//! A column of sets.
ghost use Rattle.std.specs.Prelude.{◌≡◌, ℕ, ◌-◌, ◌<◌, ◌≤◌, ◌++◌, ◌∷◌, [], ◌↔◌, length, replicate, IsTrue, OnOk, OnErr};
ghost use Rattle.relation_columns.specs.Runs.{set_at};
ghost use Rattle.relation_columns.specs.Storage.{run_values};

use crate::runs::{Cursor, Run, end_at, end_of, run_at, set_end};
use bit_relations::EventSet;
use std::alloc::{AllocError, Global};
use std::marker::Model;

/// A set for each candidate: neighbours with equal sets share one. Contracts see one set a
/// candidate.
#[derive(Drop)]
pub struct SetRuns {
    runs: Vec<Run<EventSet>>,
}

impl Model for SetRuns {
    ghost use Rattle.std.specs.Prelude.{List};
    ghost use Rattle.bit_rows.specs.Relation.{Events};
    ghost use Rattle.relation_columns.specs.Runs.{expand, AreColumnRuns};
    ghost use Rattle.relation_columns.specs.Storage.{run_ends, run_values};

    ghost Value = { List Events };

    ghost view = { λ c. expand 0 (run_ends c.runs.items) (run_values c.runs.items) };

    ghost invariant = { λ c. AreColumnRuns (run_ends c.runs.items) (run_values c.runs.items) };
}

impl SetRuns {
    /// The column of no candidate.
    pub fn new(alloc: Global) -> SetRuns
        ensures { result ≡ [] }
    {
        SetRuns {
            runs: Vec::new(alloc),
        }
    }

    /// Becomes the column of no candidate, and keeps the memory.
    pub fn clear(&mut self)
        ensures { self.new ≡ [] }
    {
        self.runs.clear();
    }

    /// How many candidates it has a value for.
    pub fn len(&self) -> usize
        ensures { result ≡ length self.now }
    {
        end_of(&self.runs)
    }

    /// Gives one value to the next candidates, up to an end. Where memory is out the column stays
    /// as it was.
    pub fn push_run(&mut self, value: &EventSet, end: usize) -> Result<(), AllocError>
        requires { length self.old < end }
        ensures added { OnOk result (self.new
            ≡ self.old ++ replicate (end - length self.old) value.now) }
        ensures kept { OnErr result (self.new ≡ self.old) }
    {
        let count = self.runs.len();
        if 0 < count && is_at(&self.runs, count - 1, value) {
            set_end(&mut self.runs, count - 1, end);
        } else {
            self.runs.reserve(1)?;
            self.runs.push_reserved(Run { end, value: *value });
        }
        Ok(())
    }

    /// Gives a value to the next candidate. Where memory is out the column stays as it was.
    pub fn push(&mut self, value: &EventSet) -> Result<(), AllocError>
        ensures added { OnOk result (self.new ≡ self.old ++ value.now ∷ []) }
        ensures kept { OnErr result (self.new ≡ self.old) }
    {
        match self.len().checked_add(1) {
            Some(end) => self.push_run(value, end),
            None => Err(AllocError),
        }
    }

    /// Gives the last value to the next candidate too; a column of no candidate stays as it is.
    /// Where memory is out the column stays as it was.
    pub fn push_last(&mut self) -> Result<(), AllocError>
        ensures added { OnOk result (0 < length self.old
            → self.new ≡ self.old ++ set_at self.old (length self.old - 1) ∷ []) }
        ensures none { OnOk result (self.old ≡ [] → self.new ≡ []) }
        ensures kept { OnErr result (self.new ≡ self.old) }
    {
        let count = self.runs.len();
        if count == 0 {
            return Ok(());
        }
        match end_at(&self.runs, count - 1).checked_add(1) {
            Some(end) => {
                set_end(&mut self.runs, count - 1, end);
                Ok(())
            }
            None => Err(AllocError),
        }
    }

    /// Up to where the candidates from one on have the same value.
    pub fn same_until(&self, at: usize) -> usize
        requires { at < length self.now }
        ensures after { at < result }
        ensures within { result ≤ length self.now }
        ensures same { (k : ℕ) → at ≤ k → k < result → set_at self.now k ≡ set_at self.now at }
    {
        let runs = self.runs.as_slice();
        end_at(runs, run_at(runs, 0, at))
    }

    /// The value of a candidate, and up to where the candidates after it have the same.
    pub fn read(&self, cursor: &mut Cursor, at: usize) -> (EventSet, usize)
        requires { at < length self.now }
        ensures value { result.0 ≡ set_at self.now at }
        ensures after { at < result.1 }
        ensures within { result.1 ≤ length self.now }
        ensures same { (k : ℕ) → at ≤ k → k < result.1 → set_at self.now k ≡ set_at self.now at }
    {
        let runs = self.runs.as_slice();
        let run = run_at(runs, cursor.run, at);
        cursor.run = run;
        (value_of(runs, run), end_at(runs, run))
    }

    /// Whether both have the same values.
    pub fn is_same(&self, other: &SetRuns) -> bool
        ensures { IsTrue result ↔ (self.now ≡ other.now) }
    {
        let count = self.len();
        if count != other.len() {
            return false;
        }
        let mut left_cursor = Cursor::new();
        let mut right_cursor = Cursor::new();
        let mut done = 0;
        'runs: while done < count {
            let (left, left_end) = self.read(&mut left_cursor, done);
            let (right, right_end) = other.read(&mut right_cursor, done);
            if !left.is_same(&right) {
                return false;
            }
            done = left_end.min(right_end);
        }
        true
    }
}

/// The set of a run.
fn value_of(runs: &[Run<EventSet>], run: usize) -> EventSet
    requires { run < length runs.now }
    ensures { result ≡ set_at (run_values runs.now) run }
{
    runs[run].value
}

/// Whether the set of a run is another.
fn is_at(runs: &[Run<EventSet>], run: usize, value: &EventSet) -> bool
    requires { run < length runs.now }
    ensures { IsTrue result ↔ (set_at (run_values runs.now) run ≡ value.now) }
{
    value_of(runs, run).is_same(value)
}
