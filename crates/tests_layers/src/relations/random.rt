//! Relations and sets that look random.
ghost use Rattle.std.specs.Prelude.{◌≡◌, ◌≤◌, IfOk};

use bit_relations::{EventSet, Rel};
use std::alloc::{AllocError, Global};

type Pair = (usize, usize);

/// The next of a sequence of numbers that look random (xorshift).
fn next(state: u64) -> u64 {
    let a = state ^ (state << 13);
    let b = a ^ (a >> 7);
    b ^ (b << 17)
}

/// Some pairs of events below a count, each perhaps more than once.
fn random_pairs(alloc: Global, count: usize, seed: u64) -> Result<Vec<Pair>, AllocError> {
    let mut state = next(seed);
    let mut list = Vec::new(alloc);
    for _ in 0..count {
        if count > 0 {
            state = next(state);
            let from = (state >> 20) as usize % count;
            let to = (state >> 40) as usize % count;
            list.push((from, to))?;
        }
    }
    Ok(list)
}

fn relation_of(count: usize, list: &[Pair]) -> Rel
    requires { count ≤ 128 }
    ensures { result.count ≡ count }
{
    let mut made = Rel::empty(count);
    for pair in list {
        if pair.0 < count && pair.1 < count {
            made.insert(pair.0, pair.1);
        }
    }
    made
}

fn set_of(count: usize, list: &[Pair]) -> EventSet
    requires { count ≤ 128 }
    ensures { result.count ≡ count }
{
    let mut made = EventSet::empty(count);
    for pair in list {
        if pair.0 < count {
            made.insert(pair.0);
        }
    }
    made
}

/// A relation of as many pairs as events, each perhaps more than once.
pub fn relation(alloc: Global, count: usize, seed: u64) -> Result<Rel, AllocError>
    requires { count ≤ 128 }
    ensures { IfOk result (λ r. r.count ≡ count) }
{
    let list = random_pairs(alloc, count, seed)?;
    Ok(relation_of(count, &list))
}

/// The events from which the pairs of such a relation lead.
pub fn set(alloc: Global, count: usize, seed: u64) -> Result<EventSet, AllocError>
    requires { count ≤ 128 }
    ensures { IfOk result (λ s. s.count ≡ count) }
{
    let list = random_pairs(alloc, count, seed)?;
    Ok(set_of(count, &list))
}
