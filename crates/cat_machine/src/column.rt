//! The value of a name over a list of candidates.

ghost use Rattle.std.specs.Prelude.{◌≡◌, ◌+◌, ◌-◌, ◌^◌, ◌<◌, ◌≤◌, ◌↔◌, ℕ, slice_get, IsTrue, OnOk};
ghost use Rattle.bit_rows.specs.Relation.{IsRelation, IsEvents};
ghost use Rattle.base_names.specs.Known.{EventsFound};
ghost use Rattle.binding_kinds.specs.declared.kinds.Kind.TheVariants as kinds;
ghost use Rattle.cat_machine.specs.Values.{AddsValue, AddsRun, IsFor, column_len};
ghost use Rattle.cat_machine.specs.Named.{ColumnEvents, ColumnPairs, PairsFound};
ghost use Rattle.cat_machine.specs.Steady.{HasSame, Repeats};

use bit_relations::{EventSet, Rel};
use relation_columns::{Cursor, RunColumn, SetRuns};
use std::alloc::{AllocError, Global};

/// The value of a name in each candidate of a space, in order. Contracts see one value a candidate;
/// neighbours with equal values share one.
pub enum Column {
    /// A set for each candidate.
    Sets(SetRuns),
    /// A relation for each candidate.
    Relations(RunColumn),
}

impl Drop for Column {
    fn drop(self) {
        match self {
            Column::Sets(_) => {},
            Column::Relations(_) => {},
        }
    }
}

impl Column {
    /// A list of sets without a value.
    pub fn of_sets(alloc: Global) -> Column
        ensures kind { IsFor kinds.OfSet result }
        ensures empty { column_len result ≡ 0 }
    {
        Column::Sets(SetRuns::new(alloc))
    }

    /// A list of relations without a value.
    pub fn of_relations(alloc: Global) -> Column
        ensures kind { IsFor kinds.OfRelation result }
        ensures empty { column_len result ≡ 0 }
    {
        Column::Relations(RunColumn::new(alloc))
    }

    /// How many candidates it has a value for.
    pub fn len(&self) -> usize
        ensures { result ≡ column_len self.now }
    {
        match self {
            Column::Sets(values) => values.len(),
            Column::Relations(values) => values.len(),
        }
    }

    /// Whether it has no value.
    pub fn is_empty(&self) -> bool
        ensures { IsTrue result ↔ (column_len self.now ≡ 0) }
    {
        self.len() == 0
    }

    /// Whether both have the same values, of the same kind, for as many candidates.
    pub fn is_same(&self, other: &Column) -> bool
        ensures { IsTrue result ↔ (self.now ≡ other.now) }
    {
        match (self, other) {
            (Column::Sets(left), Column::Sets(right)) => left.is_same(right),
            (Column::Relations(left), Column::Relations(right)) => left.is_same(right),
            _ => false,
        }
    }

    /// The set of a candidate of so many events: empty where there is none.
    pub fn set(&self, candidate: usize, count: usize) -> EventSet
        requires { count ≤ 128 }
        ensures { IsEvents result count (ColumnEvents self.now candidate count) }
    {
        match self {
            Column::Sets(values) => found_set(values, candidate, count),
            Column::Relations(_) => EventSet::empty(count),
        }
    }

    /// Writes the relation of a candidate of so many events to `target`: the empty one where there
    /// is none.
    pub fn write_relation(&self, candidate: usize, count: usize, target: &mut Rel)
        requires { count ≤ 128 }
        ensures { IsRelation target.new count (ColumnPairs self.now candidate count) }
    {
        match self {
            Column::Sets(_) => target.clear(count),
            Column::Relations(values) => write_found(values, candidate, count, target),
        }
    }

    /// The set of a candidate of so many events, empty where there is none, and up to where the
    /// candidates behind it have the same.
    pub fn read_set(&self, candidate: usize, count: usize) -> (EventSet, usize)
        requires few { count ≤ 128 }
        requires more { candidate + 1 < 2 ^ 64 }
        ensures after { candidate < result.1 }
        ensures value { (k : ℕ) → candidate ≤ k → k < result.1
            → IsEvents result.0 count (ColumnEvents self.now k count) }
    {
        match self {
            Column::Sets(values) => read_events(values, candidate, count),
            Column::Relations(_) => (EventSet::empty(count), usize::MAX),
        }
    }

    /// Makes `target` the relation of a candidate of so many events, empty where there is none, and
    /// answers up to where the candidates behind it have the same.
    pub fn read_relation(&self, candidate: usize, count: usize, target: &mut Rel) -> usize
        requires few { count ≤ 128 }
        requires more { candidate + 1 < 2 ^ 64 }
        ensures after { candidate < result }
        ensures value { (k : ℕ) → candidate ≤ k → k < result
            → IsRelation target.new count (ColumnPairs self.now k count) }
    {
        match self {
            Column::Sets(_) => {
                target.clear(count);
                usize::MAX
            }
            Column::Relations(values) => read_pairs(values, candidate, count, target),
        }
    }

    /// Adds the value of the next candidates, up to an end, of which the one of its kind counts.
    pub fn push_run(&mut self, set: &EventSet, relation: &Rel, end: usize) -> Result<(), AllocError>
        requires { column_len self.old < end }
        ensures { OnOk result (AddsRun self.old self.new (end - column_len self.old) set.now
            relation.now) }
    {
        match self {
            Column::Sets(values) => values.push_run(set, end)?,
            Column::Relations(values) => values.push_run(relation, end)?,
        }
        Ok(())
    }

    /// Adds the value of the next candidate, of which the one of its kind counts.
    pub fn push(&mut self, set: &EventSet, relation: &Rel) -> Result<(), AllocError>
        ensures { OnOk result (AddsValue self.old self.new set.now relation.now) }
    {
        match self {
            Column::Sets(values) => values.push(set)?,
            Column::Relations(values) => values.push(relation)?,
        }
        Ok(())
    }

    /// Gives the next candidate the last value too: a list without a value stays so.
    pub fn push_last(&mut self) -> Result<(), AllocError>
        ensures { OnOk result (Repeats self.old self.new) }
    {
        match self {
            Column::Sets(values) => values.push_last()?,
            Column::Relations(values) => values.push_last()?,
        }
        Ok(())
    }

    /// Up to where the candidates from one on have the same value.
    pub fn same_until(&self, candidate: usize) -> usize
        ensures { (k : ℕ) → candidate ≤ k → k < result → HasSame self.now candidate k }
    {
        match self {
            Column::Sets(values) if candidate < values.len() => values.same_until(candidate),
            Column::Relations(values) if candidate < values.len() => values.same_until(candidate),
            _ => candidate,
        }
    }
}

/// The set of a candidate: the empty one where there is none of so many events.
fn found_set(values: &SetRuns, candidate: usize, count: usize) -> EventSet
    requires { count ≤ 128 }
    ensures { IsEvents result count (EventsFound (slice_get values.now candidate) count) }
{
    if candidate < values.len() {
        let (value, _) = values.read(&mut Cursor::new(), candidate);
        if value.count() == count {
            return value;
        }
    }
    EventSet::empty(count)
}

/// Writes the relation of a candidate to `target`: the empty one where there is none of so many
/// events.
fn write_found(values: &RunColumn, candidate: usize, count: usize, target: &mut Rel)
    requires { count ≤ 128 }
    ensures { IsRelation target.new count (PairsFound (slice_get values.now candidate) count) }
{
    if candidate < values.len() {
        values.read(&mut Cursor::new(), candidate, target);
        if target.count() == count {
            return;
        }
    }
    target.clear(count);
}

/// The set of a candidate: the empty one where there is none of so many events.
fn read_events(values: &SetRuns, candidate: usize, count: usize) -> (EventSet, usize)
    requires few { count ≤ 128 }
    requires more { candidate + 1 < 2 ^ 64 }
    ensures after { candidate < result.1 }
    ensures value { (k : ℕ) → candidate ≤ k → k < result.1
        → IsEvents result.0 count (EventsFound (slice_get values.now k) count) }
{
    if values.len() <= candidate {
        return (EventSet::empty(count), usize::MAX);
    }
    let (value, end) = values.read(&mut Cursor::new(), candidate);
    if value.count() != count {
        return (EventSet::empty(count), end);
    }
    (value, end)
}

/// Writes the relation of a candidate to `target`: the empty one where there is none of so many
/// events.
fn read_pairs(values: &RunColumn, candidate: usize, count: usize, target: &mut Rel) -> usize
    requires few { count ≤ 128 }
    requires more { candidate + 1 < 2 ^ 64 }
    ensures after { candidate < result }
    ensures value { (k : ℕ) → candidate ≤ k → k < result
        → IsRelation target.new count (PairsFound (slice_get values.now k) count) }
{
    if values.len() <= candidate {
        target.clear(count);
        return usize::MAX;
    }
    let end = values.read(&mut Cursor::new(), candidate, target);
    if target.count() != count {
        target.clear(count);
    }
    end
}
