//! The read choices of a combination of runs: for each load the store that it reads.

ghost use Rattle.std.specs.Prelude.{◌≡◌, ◌<◌, ◌≤◌, ◌↔◌, ◌⊎◌, ◌++◌, ◌∷◌, [], length, option_to_list, Contains, IsTrue, IfOk, OnOk, MatchOption};
ghost use Rattle.bit_rows.specs.Relation.{IsMember, IsEvents};
ghost use Rattle.run_combinations.specs.Rounds.{IsEventSubset, HasCommonEvent, CanRead, CanArise, WithStores, WithLoads, IsArisingRound, HasDerived, TellsPossible, ArePossible, GainsNext, AreNext, AreOver, HasManyChoices, HasReadChoices, IsReadingOf, AreLoads, AreStores};
ghost use Rattle.store_orders.specs.Lists.{lists_of};
ghost use Rattle.run_combinations.specs.Search.{Tells};
ghost use Rattle.store_orders.specs.Events.{numbers, is_load, is_store};
ghost use Rattle.run_combinations.specs.ReadChoices.{may_read};
ghost use Rattle.run_combinations.specs.ReadChoices as read_choices;

use bit_relations::{EventSet, MAX_EVENTS};
use std::alloc::{AllocError, Global};
use std::mem::{replace, swap};
use store_orders::{Action, Event};
use thread_runs::is_same;

/// A load with the stores of its location and value.
#[derive(Clone, Copy)]
struct Load {
    event: usize,
    sources: EventSet,
}

/// A store with the loads whose values its value needs.
#[derive(Clone, Copy)]
struct Store {
    event: usize,
    needs: EventSet,
}

/// The loads and stores of a combination of runs, in event order.
#[derive(Drop)]
pub struct Reading {
    count: usize,
    loads: Vec<Load>,
    stores: Vec<Store>,
}

/// Adds the event, if it is wanted and the set can have it.
fn add_if(set: &mut EventSet, is_wanted: bool, event: usize)
    ensures { IsEvents set.new set.old.count (λ x. IsMember set.old x
        ⊎ ((x < set.old.count) × (x ≡ event) × IsTrue is_wanted)) }
{
    let count = set.count();
    if is_wanted && event < count {
        set.insert(event);
    }
}

/// Whether the set has the event.
fn has(set: &EventSet, event: usize) -> bool
    ensures { IsTrue result ↔ IsMember set.now event }
{
    event < set.count() && set.contains(event)
}

/// Whether the second set has all events of the first.
fn is_within(set: &EventSet, other: &EventSet) -> bool
    ensures { IsTrue result ↔ IsEventSubset set.now other.now }
{
    set.count() == other.count() && set.minus(other).is_empty()
}

/// Whether the sets have a common event.
fn meets(set: &EventSet, other: &EventSet) -> bool
    ensures { IsTrue result ↔ HasCommonEvent set.now other.now }
{
    set.count() == other.count() && !set.inter(other).is_empty()
}

/// Whether both sets have the event.
fn has_both(set: &EventSet, other: &EventSet, event: usize) -> bool
    ensures { IsTrue result ↔ (IsMember set.now event × IsMember other.now event) }
{
    has(set, event) && has(other, event)
}

/// Whether the load at this index is the one to leave out.
fn is_left(without: Option<usize>, index: usize) -> bool
    ensures { IsTrue result ↔ (without ≡ Some index) }
{
    match without {
        Some(left) => left == index,
        None => false,
    }
}

/// Whether the load at this index reads an event of the set: the first ones what `reads_from` says,
/// the others any store of their location and value.
fn can_read(load: &Load, reads_from: &[u8], index: usize, derived: &EventSet) -> bool
    ensures { IsTrue result ↔ CanRead reads_from.now derived.now index load.now }
{
    if index < reads_from.len() {
        has(derived, usize::from(reads_from[index]))
    } else {
        meets(&load.sources, derived)
    }
}

/// Whether the load at this index reads an event of the set, and is not the one to leave out.
fn can_arise(
    load: &Load,
    reads_from: &[u8],
    without: Option<usize>,
    index: usize,
    derived: &EventSet,
) -> bool
    ensures { IsTrue result ↔ CanArise reads_from.now without derived.now index load.now }
{
    !is_left(without, index) && can_read(load, reads_from, index, derived)
}

/// Whether the event is a load.
fn is_read(event: &Event) -> bool
    ensures { result ≡ is_load event.now }
{
    matches!(event.action, Action::Load { .. })
}

/// Whether the event is a store.
fn is_write(event: &Event) -> bool
    ensures { result ≡ is_store event.now }
{
    matches!(event.action, Action::Store { .. })
}

/// Whether there is a load of this number.
fn has_load(events: &[Event], number: usize) -> bool
    ensures { IsTrue result ↔ Contains (numbers is_load 0 events.now) number }
{
    number < events.len() && is_read(&events[number])
}

/// Whether the load may read the store: they have one location and value.
fn is_source(load: &Event, store: &Event) -> bool
    ensures { result ≡ may_read load.now.action store.now.action }
{
    match (load.action, store.action) {
        (
            Action::Load { location, value },
            Action::Store {
                location: written_to,
                value: written,
            },
        ) => written_to == location && is_same(written, value),
        _ => false,
    }
}

/// The stores that the load may read.
fn sources_of(events: &[Event], load: &Event) -> EventSet
    requires { length events.now ≤ MAX_EVENTS }
    ensures { IsEvents result (length events.now)
        (Contains (read_choices.stores_for events.now load.now)) }
{
    let mut found = EventSet::empty(events.len());
    for number in 0..events.len() {
        add_if(&mut found, is_source(load, &events[number]), number);
    }
    found
}

/// Whether the pair is a load and the store, which needs its value.
fn is_need(events: &[Event], pair: (usize, usize), store: usize) -> bool
    ensures { IsTrue result ↔ ((pair.1 ≡ store) × Contains (numbers is_load 0 events.now) pair.0) }
{
    pair.1 == store && has_load(events, pair.0)
}

/// The loads that the store needs.
fn needs_of(events: &[Event], need_pairs: &[(usize, usize)], store: usize) -> EventSet
    requires { length events.now ≤ MAX_EVENTS }
    ensures { IsEvents result (length events.now) (λ a. Contains need_pairs.now (a, store)
        × Contains (numbers is_load 0 events.now) a) }
{
    let mut found = EventSet::empty(events.len());
    for number in 0..need_pairs.len() {
        let pair = need_pairs[number];
        add_if(&mut found, is_need(events, pair, store), pair.0);
    }
    found
}

/// Makes the list that of the loads among the events.
fn find_loads(events: &[Event], loads: &mut Vec<Load>) -> Result<(), AllocError>
    requires { length events.now ≤ MAX_EVENTS }
    ensures { OnOk result (AreLoads events.now (length events.now) loads.new.items) }
{
    loads.clear();
    for number in 0..events.len() {
        if is_read(&events[number]) {
            loads.push(Load {
                event: number,
                sources: sources_of(events, &events[number]),
            })?;
        }
    }
    Ok(())
}

/// Makes the list that of the stores among the events.
fn find_stores(
    events: &[Event],
    need_pairs: &[(usize, usize)],
    stores: &mut Vec<Store>,
) -> Result<(), AllocError>
    requires { length events.now ≤ MAX_EVENTS }
    ensures { OnOk result (AreStores events.now need_pairs.now (length events.now)
        stores.new.items) }
{
    stores.clear();
    for number in 0..events.len() {
        if is_write(&events[number]) {
            stores.push(Store {
                event: number,
                needs: needs_of(events, need_pairs, number),
            })?;
        }
    }
    Ok(())
}

/// The read choice with the store behind it, with room for as many stores as it has room for.
fn with_store(alloc: Global, reads_from: &Vec<u8>, store: u8) -> Result<Vec<u8>, AllocError>
    ensures { IfOk result (λ v. v.items ≡ reads_from.now.items ++ store ∷ []) }
{
    let mut whole = Vec::with_capacity(alloc, reads_from.capacity())?;
    whole.extend_from_slice(reads_from)?;
    whole.push(store)?;
    Ok(whole)
}

/// Adds a copy of the read choice with the store behind it, if there is one.
fn push_copy(
    alloc: Global,
    reads_from: &Vec<u8>,
    store: Option<u8>,
    longer: &mut Vec<Vec<u8>>,
) -> Result<(), AllocError>
    ensures { OnOk result (lists_of longer.new.items
        ≡ lists_of longer.old.items
        ++ read_choices.nexts (option_to_list store) reads_from.now.items) }
{
    if let Some(store) = store {
        longer.push(with_store(alloc, reads_from, store)?)?;
    }
    Ok(())
}

/// Adds the read choice with the store behind it, if there is one.
fn push_reads_from(
    mut reads_from: Vec<u8>,
    store: Option<u8>,
    longer: &mut Vec<Vec<u8>>,
) -> Result<(), AllocError>
    ensures { OnOk result (lists_of longer.new.items
        ≡ lists_of longer.old.items ++ read_choices.nexts (option_to_list store) reads_from.items) }
{
    if let Some(store) = store {
        reads_from.push(store)?;
        longer.push(reads_from)?;
    }
    Ok(())
}

impl Reading {
    /// No loads and no stores.
    pub fn empty(alloc: Global) -> Reading {
        Reading {
            count: 0,
            loads: Vec::new(alloc),
            stores: Vec::new(alloc),
        }
    }

    /// Makes it the loads and stores among the events, of which there are at most 128. A pair of
    /// `need_pairs` is a load and a store whose value needs that of the load. Errors: out of
    /// memory.
    pub fn show(
        &mut self,
        events: &[Event],
        need_pairs: &[(usize, usize)],
    ) -> Result<(), AllocError>
        ensures { OnOk result (length events.now ≤ MAX_EVENTS
            → IsReadingOf events.now need_pairs.now self.new) }
    {
        let events = &events[..events.len().min(MAX_EVENTS)];
        self.count = events.len();
        find_loads(events, &mut self.loads)?;
        find_stores(events, need_pairs, &mut self.stores)?;
        Ok(())
    }

    /// The events, and the stores whose needs are among them.
    fn with_stores(&self, derived: &EventSet) -> EventSet
        ensures { WithStores self.now derived.now result }
    {
        let mut next = *derived;
        let _count = derived.count();
        for store in &self.stores {
            add_if(&mut next, is_within(&store.needs, derived), store.event);
        }
        next
    }

    /// The events, and the loads but for one, if any, that read one of them.
    fn with_loads(&self, reads_from: &[u8], without: Option<usize>, derived: &EventSet) -> EventSet
        ensures { WithLoads self.now reads_from.now without derived.now result }
    {
        let mut next = *derived;
        let _count = derived.count();
        for (index, load) in self.loads.iter().enumerate() {
            let is_wanted = can_arise(load, reads_from, without, index, derived);
            add_if(&mut next, is_wanted, load.event);
        }
        next
    }

    /// The events, and what arises from them at once.
    fn round(&self, reads_from: &[u8], without: Option<usize>, derived: &EventSet) -> EventSet
        ensures { IsArisingRound self.now reads_from.now without derived.now result }
    {
        self.with_loads(reads_from, without, &self.with_stores(derived))
    }

    /// The loads and stores whose values can arise in some order, where the first loads read as
    /// `reads_from` says and one load, if any, is left out.
    fn derived(&self, reads_from: &[u8], without: Option<usize>) -> EventSet
        ensures { HasDerived self.now reads_from.now without result }
    {
        let mut derived = EventSet::empty(self.count.min(MAX_EVENTS));
        let mut next = self.round(reads_from, without, &derived);
        while !next.is_same(&derived) {
            derived = next;
            next = self.round(reads_from, without, &derived);
        }
        derived
    }

    /// Whether all loads can read without a cycle.
    fn is_possible(&self) -> bool
        ensures { TellsPossible self.now result }
    {
        let derived = self.derived(&[], None);
        for load in &self.loads {
            if !has(&derived, load.event) {
                return false;
            }
        }
        true
    }

    /// Adds to `longer` the read choice with each store that the load at `index`, the first without
    /// one, can read.
    fn extend(
        &self,
        alloc: Global,
        reads_from: Vec<u8>,
        load: &Load,
        index: usize,
        longer: &mut Vec<Vec<u8>>,
    ) -> Result<(), AllocError>
        ensures { OnOk result (GainsNext self.now load.now index reads_from.items
            (lists_of longer.old.items) (lists_of longer.new.items)) }
    {
        let derived = self.derived(&reads_from, Some(index));
        let mut last = None;
        for store in 0..self.count.min(MAX_EVENTS) {
            if has_both(&load.sources, &derived, store) {
                push_copy(alloc, &reads_from, last, longer)?;
                last = Some(store as u8);
            }
        }
        push_reads_from(reads_from, last, longer)?;
        Ok(())
    }

    /// Makes `longer` each read choice with each store that the load at `index` can read, of which
    /// the last is the read choice itself; `false` where there are over `limit`.
    fn extend_all(
        &self,
        alloc: Global,
        prefixes: &mut Vec<Vec<u8>>,
        load: &Load,
        index: usize,
        limit: usize,
        longer: &mut Vec<Vec<u8>>,
    ) -> Result<bool, AllocError>
        ensures { IfOk result (λ b. Tells b
            (AreNext self.now load.now index (length prefixes.old.items)
            (lists_of prefixes.old.items) (lists_of longer.new.items))
            (AreOver self.now load.now index (lists_of prefixes.old.items) limit)) }
    {
        longer.clear();
        for place in 0..prefixes.len() {
            let reads_from = replace(&mut prefixes[place], Vec::new(alloc));
            self.extend(alloc, reads_from, load, index, longer)?;
            if longer.len() > limit {
                return Ok(false);
            }
        }
        Ok(true)
    }

    /// The read choice of no load, if all loads can read without a cycle.
    fn first_read_choices(&self, alloc: Global) -> Result<Vec<Vec<u8>>, AllocError>
        ensures { IfOk result (λ v. ArePossible self.now 0 (lists_of v.items)) }
    {
        let mut read_choices = Vec::new(alloc);
        if self.is_possible() {
            read_choices.push(Vec::with_capacity(alloc, self.loads.len())?)?;
        }
        Ok(read_choices)
    }

    /// Makes read choices of no load those of all loads; `false` where there are over `limit`.
    fn extend_read_choices(
        &self,
        alloc: Global,
        read_choices: &mut Vec<Vec<u8>>,
        limit: usize,
    ) -> Result<bool, AllocError>
        ensures { ArePossible self.now 0 (lists_of read_choices.old.items)
            → IfOk result (λ b.
            Tells b (HasReadChoices self.now (lists_of read_choices.new.items))
            (HasManyChoices self.now limit)) }
    {
        let mut longer = Vec::new(alloc);
        for (index, load) in self.loads.iter().enumerate() {
            if !self.extend_all(alloc, read_choices, load, index, limit, &mut longer)? {
                return Ok(false);
            }
            swap(read_choices, &mut longer);
        }
        Ok(true)
    }

    /// The read choices in which what is read and what is needed make no cycle, in lexicographic
    /// order: for each load in event order the number of its store. `None` where there are over
    /// `limit`.
    pub fn read_choices(
        &self,
        alloc: Global,
        limit: usize,
    ) -> Result<Option<Vec<Vec<u8>>>, AllocError>
        ensures { IfOk result (λ o. MatchOption o (HasManyChoices self.now limit)
            (λ v. HasReadChoices self.now (lists_of v.items) × (length v.items ≤ limit))) }
    {
        let mut read_choices = self.first_read_choices(alloc)?;
        if !self.extend_read_choices(alloc, &mut read_choices, limit)? {
            return Ok(None);
        }
        if read_choices.len() > limit {
            return Ok(None);
        }
        Ok(Some(read_choices))
    }
}
