//! The relations in which candidates of one combination of runs differ.
ghost use Rattle.std.specs.Prelude.{◌≡◌, ℕ, ◌≤◌, ◌<◌, ◌↔◌, IsTrue, Some, length};
ghost use Rattle.bit_rows.specs.Relation.{Has, IsRelation};
ghost use Rattle.bit_rows.specs.Pairs.{Union};
ghost use Rattle.base_names.specs.Events.{Below, ReadsFromBy, ReadsFromAt, Coherence, CoherenceFrom, IsAccessAt, AreLocationsRising};

use crate::fixed::{is_read, location_of, put};
use bit_relations::Rel;
use run_combinations::Event;

/// Adds the pair of the load and the store at an index of the list of stores that are read.
fn put_source(target: &mut Rel, reads_from: &[u8], next: usize, load: usize)
    ensures { IsRelation target.new target.old.count (Union (Has target.old)
        (Below target.old.count (ReadsFromAt reads_from.now next load))) }
{
    let count = target.count();
    if next < reads_from.len() {
        let store = usize::from(reads_from[next]);
        if store < count && load < count {
            target.insert(store, load);
        }
    }
}

/// Makes `target` the pairs of a store and a load that reads it. `reads_from` has for each load in
/// event order the number of its store.
pub fn write_reads(target: &mut Rel, count: usize, events: &[Event], reads_from: &[u8])
    requires { count ≤ 128 }
    ensures { IsRelation target.new count (Below count (ReadsFromBy events.now reads_from.now)) }
{
    target.clear(count);
    let mut next = 0;
    for load in 0..events.len() {
        if is_read(&events[load]) {
            put_source(target, reads_from, next, load);
            next += 1;
        }
    }
}

/// The location of the event at an index of the order, if it is an access.
fn location_at(events: &[Event], order: &[u8], index: usize) -> Option<usize>
    requires { index < length order.now }
    ensures { (l : ℕ) → (result ≡ Some l) ↔ IsAccessAt events.now order.now index l }
{
    match events.get(usize::from(order[index])) {
        Some(event) => location_of(event),
        None => None,
    }
}

/// Whether an access of this location stands at an index of the order.
fn stands_at(events: &[Event], order: &[u8], index: usize, location: usize) -> bool
    requires { index < length order.now }
    ensures { IsTrue result ↔ IsAccessAt events.now order.now index location }
{
    match location_at(events, order, index) {
        Some(found) => found == location,
        None => false,
    }
}

/// Whether each index of the order has an access, none of a lower location than an earlier one.
fn is_rising(events: &[Event], order: &[u8]) -> bool
    ensures { IsTrue result → AreLocationsRising events.now order.now (length order.now) }
{
    let mut greatest = 0;
    for index in 0..order.len() {
        match location_at(events, order, index) {
            Some(location) if greatest <= location => greatest = location,
            _ => return false,
        }
    }
    true
}

/// Adds the pairs of the store at an index of the order and each store of its location behind it.
/// Where locations rise along the order, those of one location stand together.
pub fn put_later(coherence: &mut Rel, events: &[Event], order: &[u8], index: usize, rising: bool)
    requires inside { index < length order.now }
    requires rising { IsTrue rising → AreLocationsRising events.now order.now (length order.now) }
    ensures { IsRelation coherence.new coherence.old.count (Union (Has coherence.old)
        (Below coherence.old.count (CoherenceFrom events.now order.now index))) }
{
    let _count = coherence.count();
    let Some(location) = location_at(events, order, index) else {
        return;
    };
    let store = usize::from(order[index]);
    for behind in index + 1..order.len() {
        if stands_at(events, order, behind, location) {
            put(coherence, store, usize::from(order[behind]));
        } else if rising {
            return;
        }
    }
}

/// Makes `coherence` the pairs of stores of one location in their order.
pub fn write_order(coherence: &mut Rel, count: usize, events: &[Event], order: &[u8])
    requires { count ≤ 128 }
    ensures { IsRelation coherence.new count (Below count (Coherence events.now order.now)) }
{
    coherence.clear(count);
    let rising = is_rising(events, order);
    for index in 0..order.len() {
        put_later(coherence, events, order, index, rising);
    }
}
