//! Pairs of a name's value.

ghost use Rattle.std.specs.Prelude.{◌↔◌, IsTrue};
ghost use Rattle.why_witness.specs.Pairs.{HasPair};

use bit_relations::Rel;
use cat_eval::Column;
use relation_columns::Cursor;

/// Whether a name's value in the candidate of this number has the pair. A set has none.
pub fn has_pair(values: &Column, candidate: usize, from: usize, to: usize) -> bool
    ensures { IsTrue result ↔ HasPair values.now candidate from to }
{
    match values {
        Column::Sets(_) => false,
        Column::Relations(relations) => {
            if candidate >= relations.len() {
                return false;
            }
            let mut relation = Rel::empty(0);
            relations.read(&mut Cursor::new(), candidate, &mut relation);
            from < relation.count() && to < relation.count() && relation.contains(from, to)
        }
    }
}
