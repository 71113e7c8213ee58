//! What is printed of a relation and of a set: how many members, and a number that depends on each.

use bit_relations::{EventSet, Rel};
use std::io;

/// How many members were met, and the number that depends on them and on their order.
#[derive(Clone, Copy)]
struct Digest {
    count: u64,
    number: u64,
}

impl Digest {
    fn new() -> Digest {
        Digest {
            count: 0,
            number: 0,
        }
    }

    fn with(self, member: usize) -> Digest {
        Digest {
            count: self.count.wrapping_add(1),
            number: self
                .number
                .wrapping_mul(1_000_003)
                .wrapping_add(member as u64)
                .wrapping_add(1),
        }
    }
}

/// Meets the pairs from one event; a pair counts as 128 times its first event and its second.
fn with_row(digest: Digest, relation: &Rel, from: usize) -> Digest {
    let mut digest = digest;
    for to in 0..relation.count() {
        if from < relation.count() && relation.contains(from, to) {
            digest = digest.with(from.wrapping_mul(128).wrapping_add(to));
        }
    }
    digest
}

/// Prints a relation.
pub fn show_relation<R: Print>(rt: &R, name: &str, relation: &Rel) -> io::Result<()> {
    let mut digest = Digest::new();
    for from in 0..relation.count() {
        digest = with_row(digest, relation, from);
    }
    println!(rt; "{name}: {} pairs, {}", digest.count, digest.number)
}

/// Prints a set.
pub fn show_set<R: Print>(rt: &R, name: &str, set: &EventSet) -> io::Result<()> {
    let mut digest = Digest::new();
    for event in 0..set.count() {
        if set.contains(event) {
            digest = digest.with(event);
        }
    }
    println!(rt; "{name}: {} events, {}", digest.count, digest.number)
}

/// Prints events in order.
pub fn show_events<R: Print>(rt: &R, name: &str, events: &[usize]) -> io::Result<()> {
    let mut digest = Digest::new();
    for event in events {
        digest = digest.with(*event);
    }
    println!(rt; "{name}: {} events, {}", digest.count, digest.number)
}
