//! The combinations of runs that have candidates.
ghost use Rattle.std.specs.Prelude.{ℕ, ◌≡◌, ◌≤◌, ◌+◌, ◌-◌, ◌*◌, ◌^◌, ◌||◌, Option, min, length, IsTrue, IfOk, OnOk, MatchOption};
ghost use Rattle.thread_runs.specs.declared.value.Value.{Value};
ghost use Rattle.run_combinations.specs.Keys.{HasKey, HasStores, AreKeys, ThreadsAreKeyed, IsKeyed, IsLoadedKey, IsStoredKey, TellsSubset};
ghost use Rattle.store_orders.specs.Lists.{lists_of};
ghost use Rattle.run_combinations.specs.Candidates.{AreSmall};
ghost use Rattle.store_orders.specs.Combinations.{combination_lists};
ghost use Rattle.run_combinations.specs.Prefixes.{cut_combination};
ghost use Rattle.run_combinations.specs.Search.{runs_lists, combination_with_run, with_run, capped_tally_with, prefix_lists, tally, PrefixFits, TalliesOneMore, ExceedsCandidates, Tells, combinations, AllPrefixesFit, HasJoined, TalliesAll, AreTooMuch, initial_prefix, no_tally, all_combinations, location_count};

use crate::MAX_CANDIDATES;
use crate::keys::KeySet;
use crate::layout::{Layout, ThreadParts};
use crate::part::Part;
use crate::reading::Reading;
use dataflow::{Dependencies, add_pairs};
use std::alloc::{AllocError, Global};
use store_orders::{Combination, Event, StoreOrders, order_count};

/// What the search has found: combinations without their orders.
#[derive(Drop)]
pub struct Found {
    /// In lexicographic order of their runs.
    pub combinations: Vec<Combination>,
    /// How many candidates they have.
    pub count: usize,
    /// Whether some candidate holds a run that stopped at a fault. The later combinations are
    /// counted and not kept then.
    pub is_faulted: bool,
    /// The loads and stores of the combination that was judged last.
    reading: Reading,
}

/// The events and dependencies of runs of the first threads, one of each, numbered as those of a
/// combination.
#[derive(Drop)]
struct PrefixRuns {
    events: Vec<Event>,
    dependencies: Dependencies,
    /// For each thread, the index of its run among its parts.
    runs: Vec<usize>,
}

/// Runs of the first threads, one of each.
#[derive(Drop)]
struct Prefix {
    /// Their events and dependencies.
    runs: PrefixRuns,
    /// A load and a store whose value needs that of the load.
    needs: Vec<(usize, usize)>,
    /// The locations and values that their loads read.
    loads: KeySet,
    /// The locations and values that they and the initial stores store.
    stores: KeySet,
    is_faulted: bool,
}

/// Whether the loads of the prefix and the part can all read what these, the initial stores or the
/// later threads store.
fn fits(prefix: &Prefix, part: &Part, later: &KeySet) -> bool
    ensures { TellsSubset result (IsLoadedKey prefix.now part.now)
        (IsStoredKey prefix.now part.now later.now) }
{
    let mut stored = *later;
    stored.join(&prefix.stores);
    stored.join(&part.stores);
    let mut read = prefix.loads;
    read.join(&part.loads);
    read.is_within(&stored)
}

/// What some run of these threads stores.
fn stores_of(threads: &[ThreadParts]) -> KeySet
    ensures { HasStores result threads.now }
{
    let mut stores = KeySet::empty();
    for thread in threads {
        stores.join(&thread.stores);
    }
    stores
}

/// The same once more.
fn copied(alloc: Global, made: &PrefixRuns) -> Result<PrefixRuns, AllocError>
    ensures { IfOk result (λ c. runs_lists c ≡ runs_lists made.now) }
{
    Ok(PrefixRuns {
        events: Vec::from_slice(alloc, &made.events)?,
        runs: Vec::from_slice(alloc, &made.runs)?,
        dependencies: made.dependencies.copied(alloc)?,
    })
}

/// Adds the run at this index among those of the next thread.
fn add_run(made: &mut PrefixRuns, run: usize, part: &Part) -> Result<(), AllocError>
    ensures { OnOk result (runs_lists made.new
        ≡ combination_with_run run part.now (runs_lists made.old)) }
{
    let base = made.events.len();
    made.dependencies.add(&part.links, base)?;
    made.events.extend_from_slice(&part.events)?;
    made.runs.push(run)?;
    Ok(())
}

/// Where a prefix ends: how long its lists are, with its sets. It is cut back to this.
#[derive(Clone, Copy)]
struct PrefixEnd {
    events: usize,
    addr_pairs: usize,
    data_pairs: usize,
    ctrl_pairs: usize,
    ctrlisync_pairs: usize,
    runs: usize,
    needs: usize,
    loads: KeySet,
    stores: KeySet,
    is_faulted: bool,
}

/// Cuts events, dependencies and runs back to where they ended.
fn cut_runs(made: &mut PrefixRuns, end: &PrefixEnd)
    ensures { runs_lists made.new ≡ cut_combination end.now (runs_lists made.old) }
{
    made.events.truncate(end.events);
    let dependencies = &mut made.dependencies;
    dependencies.addr_pairs.truncate(end.addr_pairs);
    dependencies.data_pairs.truncate(end.data_pairs);
    dependencies.ctrl_pairs.truncate(end.ctrl_pairs);
    dependencies.ctrlisync_pairs.truncate(end.ctrlisync_pairs);
    made.runs.truncate(end.runs);
}

impl Prefix {
    ghost use Rattle.run_combinations.specs.Prefixes.{IsEndOf, cut_lists};

    /// Where it ends.
    fn end(&self) -> PrefixEnd
        ensures { IsEndOf self.now result }
    {
        PrefixEnd {
            events: self.runs.events.len(),
            addr_pairs: self.runs.dependencies.addr_pairs.len(),
            data_pairs: self.runs.dependencies.data_pairs.len(),
            ctrl_pairs: self.runs.dependencies.ctrl_pairs.len(),
            ctrlisync_pairs: self.runs.dependencies.ctrlisync_pairs.len(),
            runs: self.runs.runs.len(),
            needs: self.needs.len(),
            loads: self.loads,
            stores: self.stores,
            is_faulted: self.is_faulted,
        }
    }

    /// Adds the run at this index among those of the next thread.
    fn push(&mut self, run: usize, part: &Part) -> Result<(), AllocError>
        ensures lists { OnOk result (prefix_lists self.new
            ≡ with_run run part.now (prefix_lists self.old)) }
        ensures keys { OnOk result (HasJoined self.old part.now self.new) }
    {
        let base = self.runs.events.len();
        add_pairs(&mut self.needs, &part.links.need_pairs, base)?;
        add_run(&mut self.runs, run, part)?;
        self.loads.join(&part.loads);
        self.stores.join(&part.stores);
        self.is_faulted = self.is_faulted || part.is_faulted;
        Ok(())
    }

    /// Cuts it back to where it ended.
    fn cut(&mut self, end: &PrefixEnd)
        ensures lists { prefix_lists self.new ≡ cut_lists end.now (prefix_lists self.old) }
        ensures keys { (self.new.loads ≡ end.now.loads) × (self.new.stores ≡ end.now.stores) }
    {
        cut_runs(&mut self.runs, end);
        self.needs.truncate(end.needs);
        self.loads = end.loads;
        self.stores = end.stores;
        self.is_faulted = end.is_faulted;
    }
}

/// The combination with these read choices, without its orders.
fn combination(alloc: Global, made: PrefixRuns, read_choices: Vec<Vec<u8>>) -> Combination
    requires { length made.events.items ≤ 128 }
    ensures { combination_lists result
        ≡ record (runs_lists made) { reads_from = lists_of read_choices.items } }
{
    Combination {
        events: made.events,
        dependencies: made.dependencies,
        runs: made.runs,
        reads_from: read_choices,
        orders: StoreOrders::none(alloc),
    }
}

impl Found {
    /// Counts the candidates of a combination with so many read choices and orders, and notes
    /// whether it has a fault.
    fn count_read_choices(&mut self, read_choices: usize, orders: usize, is_faulted: bool)
        ensures combinations { self.new.combinations ≡ self.old.combinations }
        ensures count { self.new.count
            ≡ min (self.old.count + min (read_choices * orders) (2 ^ 64 - 1)) (2 ^ 64 - 1) }
        ensures faulted { self.new.is_faulted ≡ (self.old.is_faulted || is_faulted) }
    {
        self.count = self
            .count
            .saturating_add(read_choices.saturating_mul(orders));
        self.is_faulted = self.is_faulted || is_faulted;
    }

    /// Keeps the combination with its read choices, if it has some, and counts its candidates,
    /// which has so many orders.
    fn keep(
        &mut self,
        alloc: Global,
        prefix: &Prefix,
        read_choices: Vec<Vec<u8>>,
        orders: usize,
    ) -> Result<(), AllocError>
        requires { length prefix.now.runs.events.items ≤ 128 }
        ensures { OnOk result (tally self.new
            ≡ capped_tally_with (prefix_lists prefix.now) (lists_of read_choices.items) orders
            (tally self.old)) }
    {
        if read_choices.is_empty() {
            return Ok(());
        }
        self.count_read_choices(read_choices.len(), orders, prefix.is_faulted);
        if self.is_faulted {
            return Ok(());
        }
        let runs = copied(alloc, &prefix.runs)?;
        self.combinations
            .push(combination(alloc, runs, read_choices))?;
        Ok(())
    }

    /// Counts the candidates of the runs, and keeps the combination if it has some; `false` where
    /// there are too many.
    fn judge(
        &mut self,
        alloc: Global,
        locations: usize,
        prefix: &Prefix,
    ) -> Result<bool, AllocError>
        requires { length prefix.now.runs.events.items ≤ 128 }
        ensures { PrefixFits (min locations 128) (prefix_lists prefix.now) → self.old.count ≤ 16384
            → IfOk result (λ b. Tells b
            (TalliesOneMore (min locations 128) (prefix_lists prefix.now) (tally self.old)
            (tally self.new) × (self.new.count ≤ 16384))
            (ExceedsCandidates (min locations 128) (prefix_lists prefix.now) (tally self.old))) }
    {
        let orders = order_count(&prefix.runs.events, locations).max(1);
        let limit = MAX_CANDIDATES.saturating_sub(self.count) / orders;
        self.reading.show(&prefix.runs.events, &prefix.needs)?;
        match self.reading.read_choices(alloc, limit)? {
            None => Ok(false),
            Some(read_choices) => {
                self.keep(alloc, prefix, read_choices, orders)?;
                Ok(true)
            }
        }
    }
}

/// Adds the combinations that begin with the prefix and go on with a run of each of the threads,
/// and leaves the prefix as it was; `false` where there are too many candidates.
fn search_from(
    alloc: Global,
    locations: usize,
    threads: &[ThreadParts],
    prefix: &mut Prefix,
    found: &mut Found,
) -> Result<bool, AllocError>
    requires { AreSmall (combinations (prefix_lists prefix.old) threads.now) }
    ensures found { (key : ℕ → Value → Option (ℕ × ℕ))
        → AreKeys key prefix.old.runs.events.items prefix.old.loads prefix.old.stores
        → ThreadsAreKeyed key threads.now
        → AllPrefixesFit (min locations 128) (combinations (prefix_lists prefix.old) threads.now)
        → found.old.count ≤ 16384
        → IfOk result (λ b. Tells b
        (TalliesAll (min locations 128) (combinations (prefix_lists prefix.old) threads.now)
        (tally found.old) (tally found.new) × (found.new.count ≤ 16384))
        (AreTooMuch (min locations 128) (combinations (prefix_lists prefix.old) threads.now)
        (tally found.old))) }
    ensures prefix { IfOk result (λ b. IsTrue b
        → prefix_lists prefix.new ≡ prefix_lists prefix.old) }
{
    if threads.is_empty() {
        let is_few = found.judge(alloc, locations, prefix)?;
        return Ok(is_few);
    }
    let thread = &threads[0];
    let others = &threads[1..];
    let later = stores_of(others);
    let end = prefix.end();
    for (run, part) in thread.parts.iter().enumerate() {
        if fits(prefix, part, &later) {
            prefix.push(run, part)?;
            if !search_from(alloc, locations, others, prefix, found)? {
                return Ok(false);
            }
            prefix.cut(&end);
        }
    }
    Ok(true)
}

/// The initial stores alone.
fn first_prefix(alloc: Global, layout: &Layout) -> Result<Prefix, AllocError>
    ensures made { IfOk result (λ f. prefix_lists f ≡ initial_prefix layout.now.initial.items) }
    ensures keys { IfOk result (λ f. ((a b : ℕ) → HasKey f.loads a b → ⊥)
        × (f.stores ≡ layout.now.initial_store_keys)) }
{
    Ok(Prefix {
        runs: PrefixRuns {
            events: Vec::from_slice(alloc, &layout.initial)?,
            dependencies: Dependencies::none(alloc),
            runs: Vec::new(alloc),
        },
        needs: Vec::new(alloc),
        loads: KeySet::empty(),
        stores: layout.initial_store_keys,
        is_faulted: false,
    })
}

/// Adds the combinations of a layout to nothing; `false` where there are too many candidates.
fn search_all(alloc: Global, layout: &Layout, found: &mut Found) -> Result<bool, AllocError>
    requires { AreSmall (all_combinations layout.now) }
    ensures { (key : ℕ → Value → Option (ℕ × ℕ)) → IsKeyed key layout.now
        → AllPrefixesFit (location_count layout.now) (all_combinations layout.now)
        → tally found.old ≡ no_tally
        → IfOk result (λ b. Tells b
        (TalliesAll (location_count layout.now) (all_combinations layout.now) no_tally
        (tally found.new) × (found.new.count ≤ 16384))
        (AreTooMuch (location_count layout.now) (all_combinations layout.now) no_tally)) }
{
    let mut prefix = first_prefix(alloc, layout)?;
    let locations = layout.initial.len();
    let is_few = search_from(alloc, locations, &layout.threads, &mut prefix, found)?;
    Ok(is_few)
}

/// The combinations that have candidates, in the order of their runs, without their orders; `None`
/// where there are too many candidates.
pub fn find_combinations(alloc: Global, layout: &Layout) -> Result<Option<Found>, AllocError>
    requires { AreSmall (all_combinations layout.now) }
    ensures { (key : ℕ → Value → Option (ℕ × ℕ)) → IsKeyed key layout.now
        → AllPrefixesFit (location_count layout.now) (all_combinations layout.now)
        → IfOk result (λ o. MatchOption o
        (AreTooMuch (location_count layout.now) (all_combinations layout.now) no_tally)
        (λ f. TalliesAll (location_count layout.now) (all_combinations layout.now) no_tally
        (tally f) × (f.count ≤ 16384))) }
{
    let mut found = Found {
        combinations: Vec::new(alloc),
        count: 0,
        is_faulted: false,
        reading: Reading::empty(alloc),
    };
    if search_all(alloc, layout, &mut found)? {
        Ok(Some(found))
    } else {
        Ok(None)
    }
}
