//! A column of relations.
ghost use Rattle.std.specs.Prelude.{◌≡◌, ℕ, ◌-◌, ◌<◌, ◌≤◌, ◌++◌, ◌∷◌, [], ◌↔◌, length, replicate, IsTrue, OnOk, OnErr};
ghost use Rattle.relation_columns.specs.Runs.{rel_at};

use crate::runs::{Cursor, Run, end_at, end_of, run_at, set_end};
use crate::spans::{Span, is_value, next_span, read_value};
use bit_relations::Rel;
use std::alloc::{AllocError, Global};
use std::marker::Model;

/// A relation for each candidate: neighbours with equal relations share one. Contracts see one
/// relation a candidate.
#[derive(Drop)]
pub struct RunColumn {
    runs: Vec<Run<Span>>,
    /// The words of the relations, one after another.
    words: Vec<u64>,
}

impl Model for RunColumn {
    ghost use Rattle.std.specs.Prelude.{List};
    ghost use Rattle.bit_rows.specs.Relation.{Relation};
    ghost use Rattle.relation_columns.specs.Runs.{expand, AreColumnRuns};
    ghost use Rattle.relation_columns.specs.Storage.{AreRelationsAt, run_ends, run_values, relations_at};

    ghost Value = { List Relation };

    ghost view = { λ c.
        expand 0 (run_ends c.runs.items) (relations_at (run_values c.runs.items) c.words.items) };

    ghost invariant = { λ c. AreColumnRuns (run_ends c.runs.items)
        (relations_at (run_values c.runs.items) c.words.items)
        × AreRelationsAt (run_values c.runs.items) c.words.items };
}

impl RunColumn {
    /// The column of no candidate.
    pub fn new(alloc: Global) -> RunColumn
        ensures { result ≡ [] }
    {
        RunColumn {
            runs: Vec::new(alloc),
            words: Vec::new(alloc),
        }
    }

    /// Becomes the column of no candidate, and keeps the memory.
    pub fn clear(&mut self)
        ensures { self.new ≡ [] }
    {
        self.runs.clear();
        self.words.clear();
    }

    /// How many candidates it has a value for.
    pub fn len(&self) -> usize
        ensures { result ≡ length self.now }
    {
        end_of(&self.runs)
    }

    /// Gives one value to the next candidates, up to an end. Where memory is out, or the relations
    /// take 2^32 words or more already, the column stays as it was.
    pub fn push_run(&mut self, value: &Rel, end: usize) -> Result<(), AllocError>
        requires { length self.old < end }
        ensures added { OnOk result (self.new
            ≡ self.old ++ replicate (end - length self.old) value.now) }
        ensures kept { OnErr result (self.new ≡ self.old) }
    {
        let count = self.runs.len();
        if 0 < count && is_value(&self.runs, &self.words, count - 1, value) {
            set_end(&mut self.runs, count - 1, end);
        } else {
            let span = next_span(&self.words, value)?;
            self.runs.reserve(1)?;
            value.append_to(&mut self.words)?;
            self.runs.push_reserved(Run { end, value: span });
        }
        Ok(())
    }

    /// Gives a value to the next candidate. Where memory is out, or the relations take 2^32 words
    /// or more already, the column stays as it was.
    pub fn push(&mut self, value: &Rel) -> Result<(), AllocError>
        ensures added { OnOk result (self.new ≡ self.old ++ value.now ∷ []) }
        ensures kept { OnErr result (self.new ≡ self.old) }
    {
        match self.len().checked_add(1) {
            Some(end) => self.push_run(value, end),
            None => Err(AllocError),
        }
    }

    /// Gives the last value to the next candidate too; a column of no candidate stays as it is.
    /// Where memory is out the column stays as it was.
    pub fn push_last(&mut self) -> Result<(), AllocError>
        ensures added { OnOk result (0 < length self.old
            → self.new ≡ self.old ++ rel_at self.old (length self.old - 1) ∷ []) }
        ensures none { OnOk result (self.old ≡ [] → self.new ≡ []) }
        ensures kept { OnErr result (self.new ≡ self.old) }
    {
        let count = self.runs.len();
        if count == 0 {
            return Ok(());
        }
        match end_at(&self.runs, count - 1).checked_add(1) {
            Some(end) => {
                set_end(&mut self.runs, count - 1, end);
                Ok(())
            }
            None => Err(AllocError),
        }
    }

    /// Up to where the candidates from one on have the same value.
    pub fn same_until(&self, at: usize) -> usize
        requires { at < length self.now }
        ensures after { at < result }
        ensures within { result ≤ length self.now }
        ensures same { (k : ℕ) → at ≤ k → k < result → rel_at self.now k ≡ rel_at self.now at }
    {
        let runs = self.runs.as_slice();
        end_at(runs, run_at(runs, 0, at))
    }

    /// Writes the value of a candidate into `target`, and answers up to where the candidates after
    /// it have the same.
    pub fn read(&self, cursor: &mut Cursor, at: usize, target: &mut Rel) -> usize
        requires { at < length self.now }
        ensures value { target.new ≡ rel_at self.now at }
        ensures after { at < result }
        ensures within { result ≤ length self.now }
        ensures same { (k : ℕ) → at ≤ k → k < result → rel_at self.now k ≡ rel_at self.now at }
    {
        let runs = self.runs.as_slice();
        let run = run_at(runs, cursor.run, at);
        read_value(runs, &self.words, run, target);
        cursor.run = run;
        end_at(runs, run)
    }

    /// Whether both have the same values.
    pub fn is_same(&self, other: &RunColumn) -> bool
        ensures { IsTrue result ↔ (self.now ≡ other.now) }
    {
        let count = self.len();
        if count != other.len() {
            return false;
        }
        let mut left_cursor = Cursor::new();
        let mut right_cursor = Cursor::new();
        let mut left = Rel::empty(0);
        let mut right = Rel::empty(0);
        let mut done = 0;
        'runs: while done < count {
            let left_end = self.read(&mut left_cursor, done, &mut left);
            let right_end = other.read(&mut right_cursor, done, &mut right);
            if !left.is_same(&right) {
                return false;
            }
            done = left_end.min(right_end);
        }
        true
    }
}
