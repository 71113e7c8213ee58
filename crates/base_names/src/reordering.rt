//! Coherence of one order, made of that of another order which begins alike.
ghost use Rattle.std.specs.Prelude.{◌≡◌, ℕ, ◌≤◌, ◌<◌, ◌↔◌, ◌⊎◌, Some, List, IsTrue, IfSome, false, slice_get};
ghost use Rattle.bit_rows.specs.Relation.{Has, IsRegular, IsRelation, IsEvents, IsMember};
ghost use Rattle.bit_rows.specs.Pairs.{Minus, Product, Union};
ghost use Rattle.base_names.specs.Events.{Below, Coherence};
ghost use Rattle.base_names.specs.Orders.{StandsFrom, CoherenceSince, IsTail};

use crate::changing::{put_later, write_order};
use bit_relations::{EventSet, Rel};
use run_combinations::Event;

/// Behind a beginning of which more stores stand than these, coherence is written anew.
const MOST_BEHIND: usize = 16;

/// How many stores both orders begin with alike.
fn alike_len(one: &[u8], other: &[u8]) -> usize
    ensures { (i : ℕ) → i < result → slice_get one.now i ≡ slice_get other.now i }
{
    let most = one.len().min(other.len());
    for index in 0..most {
        if one[index] != other[index] {
            return index;
        }
    }
    most
}

/// Adds an event, if the set can have it.
fn add(events: &mut EventSet, event: usize)
    ensures { IsEvents events.new events.old.count (λ a. IsMember events.old a
        ⊎ ((a < events.old.count) × (a ≡ event))) }
{
    if event < events.count() {
        events.insert(event);
    }
}

/// Whether an event is in the set.
fn holds(events: &EventSet, event: usize) -> bool
    ensures { IsTrue result ↔ IsMember events.now event }
{
    event < events.count() && events.contains(event)
}

/// The events below a count that stand in an order from an index on.
fn standing_from(order: &[u8], from: usize, count: usize) -> EventSet
    requires { count ≤ 128 }
    ensures { IsEvents result count (λ a. (a < count) × StandsFrom order.now from a) }
{
    let mut standing = EventSet::empty(count);
    for index in from..order.len() {
        add(&mut standing, usize::from(order[index]));
    }
    standing
}

/// Whether an event that stands in an order below an index is in the set.
fn has_any(events: &EventSet, order: &[u8], end: usize) -> bool
    ensures { result ≡ false → (i a : ℕ) → i < end → slice_get order.now i ≡ Some a
        → IsMember events.now a → ⊥ }
{
    for index in 0..end.min(order.len()) {
        if holds(events, usize::from(order[index])) {
            return true;
        }
    }
    false
}

/// From where on the orders differ, where `stores` become those that stand there in both: they are
/// few, and none of them stands before.
fn tail_of(previous: &[u8], order: &[u8], count: usize, stores: &mut EventSet) -> Option<usize>
    requires { count ≤ 128 }
    ensures { IfSome result (λ start. IsTail previous.now order.now count start stores.new) }
{
    let start = alike_len(previous, order);
    if order.len().saturating_sub(start) > MOST_BEHIND {
        return None;
    }
    *stores = standing_from(order, start, count);
    let before = standing_from(previous, start, count);
    if !stores.is_same(&before) || has_any(stores, order, start) {
        return None;
    }
    Some(start)
}

/// Takes the pairs away whose stores are both in a set.
fn drop_among(coherence: &mut Rel, spare: &mut Rel, stores: &EventSet)
    requires { stores.now.count ≡ coherence.old.count }
    ensures { IsRelation coherence.new coherence.old.count (Minus (Has coherence.old)
        (Product (IsMember stores.now) (IsMember stores.now))) }
{
    spare.set_product(stores, stores);
    coherence.minus_with(spare);
}

/// Adds the pairs whose first store stands in an order at an index from one on.
fn put_from(coherence: &mut Rel, events: &[Event], order: &[u8], from: usize)
    ensures { IsRelation coherence.new coherence.old.count (Union (Has coherence.old)
        (Below coherence.old.count (CoherenceSince events.now order.now from))) }
{
    let _count = coherence.count();
    for index in from..order.len() {
        put_later(coherence, events, order, index, false);
    }
}

/// Makes of coherence of a previous order that of one with this tail. In `spare` nothing is kept.
fn write_tail(
    coherence: &mut Rel,
    spare: &mut Rel,
    events: &[Event],
    order: &[u8],
    start: usize,
    stores: &EventSet,
)
    requires { stores.now.count ≡ coherence.old.count }
    ensures regular { (coherence.new.count ≡ coherence.old.count) × IsRegular coherence.new }
    ensures next { (previous : List ℕ)
        → IsTail previous order.now coherence.old.count start stores.now
        → IsRelation coherence.old coherence.old.count
        (Below coherence.old.count (Coherence events.now previous))
        → IsRelation coherence.new coherence.old.count
        (Below coherence.old.count (Coherence events.now order.now)) }
{
    drop_among(coherence, spare, stores);
    put_from(coherence, events, order, start);
}

/// Makes of coherence of a previous order that of another one. In `spare` nothing is kept.
pub fn write_next_order(
    coherence: &mut Rel,
    spare: &mut Rel,
    events: &[Event],
    previous: &[u8],
    order: &[u8],
)
    ensures regular { (coherence.new.count ≡ coherence.old.count) × IsRegular coherence.new }
    ensures next { IsRelation coherence.old coherence.old.count (Below coherence.old.count
        (Coherence events.now previous.now))
        → IsRelation coherence.new coherence.old.count
        (Below coherence.old.count (Coherence events.now order.now)) }
{
    let count = coherence.count();
    let mut stores = EventSet::empty(count);
    match tail_of(previous, order, count, &mut stores) {
        Some(start) => write_tail(coherence, spare, events, order, start, &stores),
        None => write_order(coherence, count, events, order),
    }
}
