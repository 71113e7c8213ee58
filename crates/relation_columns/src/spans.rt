//! Relations whose words stand one after another in one list.
ghost use Rattle.std.specs.Prelude.{◌≡◌, ◌<◌, ◌↔◌, length, IsTrue, IfOk};
ghost use Rattle.bit_rows.specs.Relation.{IsRegular};
ghost use Rattle.relation_columns.specs.Runs.{rel_at};
ghost use Rattle.relation_columns.specs.Storage.{AreRelationsAt, relations_at, run_values};

use crate::runs::Run;
use bit_relations::Rel;
use std::alloc::AllocError;

/// Where the words of a relation stand in a list.
#[derive(Clone, Copy)]
pub(crate) struct Span {
    /// The index of the first.
    start: u32,
    /// How many events the relation is over.
    count: u8,
}

/// The span of a relation whose words come next. Where the list has 2^32 words or more there is
/// none, as where memory is out.
pub(crate) fn next_span(words: &[u64], relation: &Rel) -> Result<Span, AllocError>
    ensures start { IfOk result (λ span. span.start ≡ length words.now) }
    ensures count { IfOk result (λ span. span.count ≡ relation.now.count) }
    ensures regular { IsRegular relation.now }
{
    let count = relation.count() as u8;
    match u32::try_from(words.len()) {
        Ok(start) => Ok(Span { start, count }),
        Err(_) => Err(AllocError),
    }
}

/// Writes the value of a run into `target`.
pub(crate) fn read_value(runs: &[Run<Span>], words: &[u64], run: usize, target: &mut Rel)
    requires kept { AreRelationsAt (run_values runs.now) words.now }
    requires run { run < length runs.now }
    ensures { target.new ≡ rel_at (relations_at (run_values runs.now) words.now) run }
{
    let span = runs[run].value;
    target.read_from(span.count as usize, words, span.start as usize);
}

/// Whether the value of a run is this relation.
pub(crate) fn is_value(runs: &[Run<Span>], words: &[u64], run: usize, relation: &Rel) -> bool
    requires kept { AreRelationsAt (run_values runs.now) words.now }
    requires run { run < length runs.now }
    ensures { IsTrue result
        ↔ (rel_at (relations_at (run_values runs.now) words.now) run ≡ relation.now) }
{
    let span = runs[run].value;
    if span.count as usize != relation.count() {
        return false;
    }
    relation.is_stored(words, span.start as usize)
}
