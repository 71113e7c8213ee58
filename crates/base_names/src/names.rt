//! The predefined names over the candidates of one combination of runs.
ghost use Rattle.std.specs.Prelude.{◌≡◌, ℕ, ◌≤◌, ◌↔◌, MatchOption, Contains, length, IfOk, OnOk, IsTrue, false};
ghost use Rattle.std.specs.List.{filter};
ghost use Rattle.predefined_names.specs.PredefinedNames.{is_set};
ghost use Rattle.bit_rows.specs.Relation.{Has, IsRelation, IsEvents};
ghost use Rattle.bit_rows.specs.Pairs.{Inter};
ghost use Rattle.predefined_names.specs.declared.predefined.Predefined.TheVariants as names;
ghost use Rattle.base_names.specs.Known.{AreMatching, IsConsistent, EventsUnder, PairsUnder, KnownEvents, KnownPairs, SharedPairs, EventsFound, set_names, shared_names};
ghost use Rattle.base_names.specs.Candidate.{AreNamedSets, AreNamedRelations, IsEntered, HasReadsFrom, HasCoherence, SuppliesName, AreCovered, shared_for, SetIn, RelationIn};

use crate::changing::{write_order, write_reads};
use crate::fixed::write_fixed;
use crate::reordering::write_next_order;
use crate::sets::set_of;
use bit_relations::{EventSet, Rel};
use run_combinations::Combination;
use std::alloc::{AllocError, Global};
use std::marker::Model;
use text_values::{PREDEFINED, Predefined};

/// A relation that all candidates of a combination share.
#[derive(Drop)]
struct Shared {
    name: Predefined,
    relation: Rel,
}

/// A predefined set.
#[derive(Drop)]
struct Named {
    name: Predefined,
    set: EventSet,
}

/// The predefined names over the candidates of one combination of runs, one of which is the
/// present candidate. Contracts see the number of its events, and what it holds by name.
#[derive(Drop)]
pub struct Base {
    count: usize,
    sets: Vec<Named>,
    shared: Vec<Shared>,
    reads_from: Rel,
    /// The inverse of `reads_from`.
    read_by: Rel,
    coherence: Rel,
    from_reads: Rel,
}

impl Model for Base {
    ghost use Rattle.base_names.specs.Known.{Known, AreMatching};

    ghost Value = { Known };

    ghost view = { λ b. record {
      count = b.count;
      sets = b.sets.items;
      shared = b.shared.items;
      reads_from = b.reads_from;
      read_by = b.read_by;
      coherence = b.coherence;
      from_reads = b.from_reads;
    } };

    ghost invariant = { λ b. AreMatching b.count b.reads_from b.read_by b.coherence b.from_reads };
}

/// The relation, of those that all candidates of a combination share, that a relation is made of,
/// if it is made of one.
fn shared_for(name: Predefined) -> Option<Predefined>
    ensures { result ≡ shared_for name }
{
    match name {
        Predefined::Identity
        | Predefined::ReadsFrom
        | Predefined::Coherence
        | Predefined::FromReads
        | Predefined::Communication => None,
        Predefined::ReadsFromExternal
        | Predefined::CoherenceExternal
        | Predefined::FromReadsExternal => Some(Predefined::External),
        Predefined::ReadsFromInternal
        | Predefined::CoherenceInternal
        | Predefined::FromReadsInternal => Some(Predefined::Internal),
        _ => Some(name),
    }
}

/// The sets among the names.
fn sets_of(alloc: Global, names: &[Predefined]) -> Result<Vec<Named>, AllocError>
    ensures { IfOk result (λ sets. set_names sets.items ≡ filter is_set names.now) }
{
    let mut sets = Vec::with_capacity(alloc, names.len())?;
    for name in names {
        if name.is_set() {
            sets.push(Named {
                name: *name,
                set: EventSet::empty(0),
            })?;
        }
    }
    Ok(sets)
}

/// Whether a relation of this name is there.
fn is_there(shared: &[Shared], name: Predefined) -> bool
    ensures { IsTrue result → Contains (shared_names shared.now) name }
{
    for one in shared {
        if one.name == name {
            return true;
        }
    }
    false
}

/// Makes room for a relation of this name, if there is none.
fn make_room(shared: &mut Vec<Shared>, name: Predefined) -> Result<(), AllocError>
    ensures there { OnOk result (Contains (shared_names shared.new.items) name) }
    ensures kept { OnOk result ((other : _) → Contains (shared_names shared.old.items) other
        → Contains (shared_names shared.new.items) other) }
{
    if is_there(shared, name) {
        return Ok(());
    }
    shared.reserve(1)?;
    shared.push_reserved(Shared {
        name,
        relation: Rel::empty(0),
    });
    Ok(())
}

/// The shared relations that the names are made of.
fn shared_of(alloc: Global, names: &[Predefined]) -> Result<Vec<Shared>, AllocError>
    ensures { IfOk result (λ shared. AreCovered (shared_names shared.items) names.now) }
{
    let mut shared = Vec::with_capacity(alloc, names.len())?;
    for name in names {
        if !name.is_set() {
            match shared_for(*name) {
                Some(needed) => make_room(&mut shared, needed)?,
                None => {}
            }
        }
    }
    Ok(shared)
}

/// Makes each set that of the combination.
fn put_sets(sets: &mut [Named], count: usize, combination: &Combination)
    requires few { count ≤ 128 }
    requires all { count ≤ length combination.now.events.items }
    ensures right { AreNamedSets sets.new count combination.now }
    ensures names { set_names sets.new ≡ set_names sets.old }
    ensures long { length sets.new ≡ length sets.old }
{
    let events = combination.events.as_slice();
    for index in 0..sets.len() {
        sets[index].set = set_of(sets[index].name, count, events);
    }
}

/// Makes each relation that of the combination.
fn put_shared(shared: &mut [Shared], count: usize, combination: &Combination)
    requires few { count ≤ 128 }
    requires all { count ≤ length combination.now.events.items }
    ensures right { AreNamedRelations shared.new count combination.now }
    ensures names { shared_names shared.new ≡ shared_names shared.old }
    ensures long { length shared.new ≡ length shared.old }
{
    for index in 0..shared.len() {
        let name = shared[index].name;
        write_fixed(&mut shared[index].relation, name, count, combination);
    }
}

/// The set of this name.
fn find_set(sets: &[Named], name: Predefined) -> Option<EventSet>
    ensures { (n a : ℕ) → EventsFound result n a ↔ EventsUnder sets.now name n a }
{
    for named in sets {
        if named.name == name {
            return Some(named.set);
        }
    }
    None
}

/// The relation of this name.
fn find_shared(shared: &[Shared], name: Predefined) -> Option<&Rel>
    ensures { MatchOption result ((n a b : ℕ) → PairsUnder shared.now name n a b → ⊥)
        (λ r. (n a b : ℕ)
        → ((r.now.count ≡ n) × Has r.now a b) ↔ PairsUnder shared.now name n a b) }
{
    for one in shared {
        if one.name == name {
            return Some(&one.relation);
        }
    }
    None
}

impl Base {
    /// The predefined names over the candidates of a combination, before the first `read_from`
    /// and `order`. Errors: want of memory.
    pub fn new(alloc: Global, combination: &Combination) -> Result<Base, AllocError>
        ensures entered { IfOk result (λ base. IsEntered base combination.now) }
        ensures sets { IfOk result (λ base. (name : _) → IsTrue (is_set name)
            → Contains (set_names base.sets) name) }
        ensures relations { IfOk result
            (λ base. (name : _) → is_set name ≡ false → SuppliesName base name) }
    {
        let mut base = Base::of_names(alloc, &PREDEFINED)?;
        base.enter(combination);
        Ok(base)
    }

    /// Some of the predefined names, before the first `enter`. Only these may be asked for: sets
    /// and relations of other names may be empty. Errors: want of memory.
    pub fn of_names(alloc: Global, names: &[Predefined]) -> Result<Base, AllocError>
        ensures known { IfOk result (λ base. IsConsistent base) }
        ensures sets { IfOk result (λ base. set_names base.sets ≡ filter is_set names.now) }
        ensures relations { IfOk result (λ base. (name : _) → Contains names.now name
            → is_set name ≡ false → SuppliesName base name) }
    {
        Ok(Base {
            count: 0,
            sets: sets_of(alloc, names)?,
            shared: shared_of(alloc, names)?,
            reads_from: Rel::empty(0),
            read_by: Rel::empty(0),
            coherence: Rel::empty(0),
            from_reads: Rel::empty(0),
        })
    }

    /// No predefined names, before the first `hold`.
    pub fn empty(alloc: Global) -> Base
        ensures { IsConsistent result }
    {
        Base {
            count: 0,
            sets: Vec::new(alloc),
            shared: Vec::new(alloc),
            reads_from: Rel::empty(0),
            read_by: Rel::empty(0),
            coherence: Rel::empty(0),
            from_reads: Rel::empty(0),
        }
    }

    /// Goes over to some of the predefined names, before the next `enter`. Only these may be asked
    /// for: sets and relations of other names may be empty. Errors: want of memory.
    pub fn hold(&mut self, alloc: Global, names: &[Predefined]) -> Result<(), AllocError>
        ensures known { IsConsistent self.new }
        ensures sets { OnOk result (set_names self.new.sets ≡ filter is_set names.now) }
        ensures relations { OnOk result ((name : _) → Contains names.now name → is_set name ≡ false
            → SuppliesName self.new name) }
    {
        let _count = self.count();
        self.sets = sets_of(alloc, names)?;
        self.shared = shared_of(alloc, names)?;
        Ok(())
    }

    /// Goes over to the candidates of a combination, before their first `read_from` and `order`.
    pub fn enter(&mut self, combination: &Combination)
        ensures known { IsConsistent self.new }
        ensures entered { IsEntered self.new combination.now }
        ensures sets { set_names self.new.sets ≡ set_names self.old.sets }
        ensures shared { shared_names self.new.shared ≡ shared_names self.old.shared }
    {
        let count = combination.events.len();
        self.count = count;
        put_sets(&mut self.sets, count, combination);
        put_shared(&mut self.shared, count, combination);
        self.reads_from.clear(count);
        self.read_by.clear(count);
        self.coherence.clear(count);
        self.from_reads.clear(count);
    }

    /// How many events the candidates have.
    pub fn count(&self) -> usize
        ensures known { IsConsistent self.now }
        ensures value { result ≡ self.now.count }
        ensures few { result ≤ 128 }
    {
        self.count
    }

    /// Goes over to the candidates of the combination in which the loads read so: for each load
    /// in event order the number of its store.
    pub fn read_from(&mut self, combination: &Combination, reads_from: &[u8])
        ensures known { IsConsistent self.new }
        ensures reading { HasReadsFrom self.new combination.now reads_from.now }
        ensures count { self.new.count ≡ self.old.count }
        ensures sets { self.new.sets ≡ self.old.sets }
        ensures shared { self.new.shared ≡ self.old.shared }
        ensures coherence { self.new.coherence ≡ self.old.coherence }
    {
        write_reads(
            &mut self.reads_from,
            self.count,
            &combination.events,
            reads_from,
        );
        self.read_by.set_inverse(&self.reads_from);
        self.from_reads.set_composed(&self.read_by, &self.coherence);
    }

    /// Goes over to the candidates of the combination with this order of the stores.
    pub fn order(&mut self, combination: &Combination, order: &[u8])
        ensures known { IsConsistent self.new }
        ensures ordered { HasCoherence self.new combination.now order.now }
        ensures count { self.new.count ≡ self.old.count }
        ensures sets { self.new.sets ≡ self.old.sets }
        ensures shared { self.new.shared ≡ self.old.shared }
        ensures reads_from { self.new.reads_from ≡ self.old.reads_from }
    {
        write_order(&mut self.coherence, self.count, &combination.events, order);
        self.from_reads.set_composed(&self.read_by, &self.coherence);
    }

    /// Goes over to the candidates of the combination with this order of the stores, from those
    /// with a previous one: only what differs is written.
    pub fn order_after(&mut self, combination: &Combination, previous: &[u8], order: &[u8])
        ensures known { IsConsistent self.new }
        ensures ordered { HasCoherence self.old combination.now previous.now
            → HasCoherence self.new combination.now order.now }
        ensures count { self.new.count ≡ self.old.count }
        ensures sets { self.new.sets ≡ self.old.sets }
        ensures shared { self.new.shared ≡ self.old.shared }
        ensures reads_from { self.new.reads_from ≡ self.old.reads_from }
    {
        let events = &combination.events;
        write_next_order(
            &mut self.coherence,
            &mut self.from_reads,
            events,
            previous,
            order,
        );
        self.from_reads.set_composed(&self.read_by, &self.coherence);
    }

    /// What stands under the name of a set.
    fn set_named(&self, name: Predefined) -> EventSet
        ensures { IsEvents result self.now.count (KnownEvents self.now name) }
    {
        match find_set(&self.sets, name) {
            Some(set) if set.count() == self.count => set,
            _ => EventSet::empty(self.count),
        }
    }

    /// The set of a name; a name that is no set gives the empty one.
    pub fn set(&self, name: Predefined) -> EventSet
        ensures held { IsEvents result self.now.count (KnownEvents self.now name) }
        ensures meant { (c : _) → IsEntered self.now c → Contains (set_names self.now.sets) name
            → IsEvents result self.now.count (SetIn c self.now.count name) }
    {
        self.set_named(name)
    }

    /// Makes `target` a relation that all candidates of the combination share.
    fn write_shared(&self, name: Predefined, target: &mut Rel)
        ensures { IsRelation target.new self.now.count (SharedPairs self.now name) }
    {
        match find_shared(&self.shared, name) {
            Some(relation) if relation.count() == self.count => target.copy_from(relation),
            _ => target.clear(self.count),
        }
    }

    /// Makes `target` the part of a relation that is in a shared one.
    fn write_part(&self, relation: &Rel, shared: Predefined, target: &mut Rel)
        requires { relation.now.count ≡ self.now.count }
        ensures { IsRelation target.new self.now.count
            (Inter (SharedPairs self.now shared) (Has relation.now)) }
    {
        self.write_shared(shared, target);
        target.inter_with(relation);
    }

    /// Makes `target` the union of reads-from, coherence and from-reads.
    fn write_communication(&self, target: &mut Rel)
        ensures { IsRelation target.new self.now.count (KnownPairs self.now names.Communication) }
    {
        target.copy_from(&self.reads_from);
        target.union_with(&self.coherence);
        target.union_with(&self.from_reads);
    }

    /// Makes `target` what stands under a name.
    fn write_named(&self, name: Predefined, count: usize, target: &mut Rel)
        requires { count ≡ self.now.count }
        ensures { IsRelation target.new self.now.count (KnownPairs self.now name) }
    {
        let inside = Predefined::Internal;
        let outside = Predefined::External;
        match name {
            Predefined::Identity => {
                target.clear(count);
                target.add_identity();
            }
            Predefined::ReadsFrom => target.copy_from(&self.reads_from),
            Predefined::Coherence => target.copy_from(&self.coherence),
            Predefined::FromReads => target.copy_from(&self.from_reads),
            Predefined::ReadsFromExternal => self.write_part(&self.reads_from, outside, target),
            Predefined::ReadsFromInternal => self.write_part(&self.reads_from, inside, target),
            Predefined::CoherenceExternal => self.write_part(&self.coherence, outside, target),
            Predefined::CoherenceInternal => self.write_part(&self.coherence, inside, target),
            Predefined::FromReadsExternal => self.write_part(&self.from_reads, outside, target),
            Predefined::FromReadsInternal => self.write_part(&self.from_reads, inside, target),
            Predefined::Communication => self.write_communication(target),
            _ => self.write_shared(name, target),
        }
    }

    /// Makes `target` the relation of a name in the present candidate; a name that is a set makes
    /// it the empty one.
    pub fn write_relation(&self, name: Predefined, target: &mut Rel)
        ensures held { IsRelation target.new self.now.count (KnownPairs self.now name) }
        ensures meant { (c : _) → (reads_from coherence : _) → IsEntered self.now c
            → HasReadsFrom self.now c reads_from → HasCoherence self.now c coherence
            → SuppliesName self.now name
            → IsRelation target.new self.now.count
            (RelationIn name self.now.count c reads_from coherence) }
    {
        self.write_named(name, self.count(), target);
    }
}
