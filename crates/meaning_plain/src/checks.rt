//! What checks ask of relations, which are lists of pairs of events.

ghost use Rattle.std.specs.Prelude.{◌↔◌, IfOk, IsTrue};
ghost use Rattle.meaning.specs.Sets.{IsIrreflexive, IsAcyclic};
ghost use Rattle.meaning_plain.specs.Lists.{RelationOf};

use crate::relations::transitive;
use std::alloc::{AllocError, Global};

/// Whether no event is related to itself.
pub fn is_irreflexive(pairs: &[(usize, usize)]) -> bool
    ensures { IsTrue result ↔ IsIrreflexive (RelationOf pairs.now) }
{
    for pair in pairs {
        let from = pair.0;
        let to = pair.1;
        if from == to {
            return false;
        }
    }
    true
}

/// Whether no path leads back to where it began. Errors: want of memory.
pub fn is_acyclic(alloc: Global, pairs: &[(usize, usize)]) -> Result<bool, AllocError>
    ensures { IfOk result (λ b. IsTrue b ↔ IsAcyclic (RelationOf pairs.now)) }
{
    let paths = transitive(alloc, pairs)?;
    let answer = is_irreflexive(&paths);
    Ok(answer)
}
