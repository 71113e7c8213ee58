//! The predefined names of one candidate.

ghost use Rattle.std.specs.Prelude.{◌≡◌, List, ℕ, length, IfOk, IsTrue, Contains, false};
ghost use Rattle.bit_rows.specs.Relation.{IsRelation};
ghost use Rattle.predefined_names.specs.PredefinedNames.{is_set};
ghost use Rattle.candidate_spaces.specs.Space.{IsCandidateOf};
ghost use Rattle.base_names.specs.Known.{set_names};
ghost use Rattle.base_names.specs.Candidate.{IsEntered, HasReadsFrom, HasCoherence, SuppliesName, RelationIn};
ghost use Rattle.base_env.specs.Environment.{HasFacts, IsEnvironment};

use base_names::Base;
use bit_relations::{EventSet, Rel};
use candidates::{Combination, Execution, StoreOrders};
use std::alloc::{AllocError, Global};
use text_values::Predefined;

/// The predefined names of one candidate, all over the number of its events (the herd7 manual,
/// chapter on cat, section on predefined names).
#[derive(Drop)]
pub struct BaseEnv {
    /// `_`: all events.
    pub all_set: EventSet,
    /// `R`: the loads.
    pub r_set: EventSet,
    /// `W`: the stores, with the initial ones.
    pub w_set: EventSet,
    /// `M`: loads and stores.
    pub m_set: EventSet,
    /// `F`: the fences.
    pub f_set: EventSet,
    /// `IW`: the initial stores.
    pub iw_set: EventSet,
    /// `SYNC`: the `sync` fences.
    pub sync_set: EventSet,
    /// `LWSYNC`: the `lwsync` fences.
    pub lwsync_set: EventSet,
    /// `EIEIO`: the `eieio` fences.
    pub eieio_set: EventSet,
    /// `ISYNC`: the `isync` fences.
    pub isync_set: EventSet,
    /// `id`: each event with itself.
    pub id_rel: Rel,
    /// `po`: an event and a later one of its thread.
    pub po_rel: Rel,
    /// `loc`: accesses of one location, each with itself too.
    pub loc_rel: Rel,
    /// `po-loc`: `po & loc`.
    pub po_loc_rel: Rel,
    /// `int`: events of one thread, each with itself too.
    pub int_rel: Rel,
    /// `ext`: the complement of `int` over all events.
    pub ext_rel: Rel,
    /// `rf`: a store and a load that reads it.
    pub rf_rel: Rel,
    /// `co`: a store and a later one in the order of its location's stores.
    pub co_rel: Rel,
    /// `fr`: a load and a store that is `co`-after the one that it reads.
    pub fr_rel: Rel,
    /// `rfe`: `rf & ext`.
    pub rfe_rel: Rel,
    /// `rfi`: `rf & int`.
    pub rfi_rel: Rel,
    /// `coe`: `co & ext`.
    pub coe_rel: Rel,
    /// `coi`: `co & int`.
    pub coi_rel: Rel,
    /// `fre`: `fr & ext`.
    pub fre_rel: Rel,
    /// `fri`: `fr & int`.
    pub fri_rel: Rel,
    /// `com`: `rf | co | fr`.
    pub com_rel: Rel,
    /// `addr`: a load and an access whose address depends on it.
    pub addr_rel: Rel,
    /// `data`: a load and a store whose value depends on it.
    pub data_rel: Rel,
    /// `ctrl`: a load and an event behind a branch that depends on it.
    pub ctrl_rel: Rel,
    /// `ctrlisync`: a load and an event behind an `isync` that is `ctrl`-after it.
    pub ctrlisync_rel: Rel,
    /// `sync`: accesses of a thread with a `sync` between them.
    pub sync_rel: Rel,
    /// `lwsync`: accesses of a thread with an `lwsync` between them.
    pub lwsync_rel: Rel,
    /// `eieio`: accesses of a thread with an `eieio` between them.
    pub eieio_rel: Rel,
    /// `isync`: accesses of a thread with an `isync` between them.
    pub isync_rel: Rel,
}

/// The relation of a name in the present candidate.
fn relation(base: &Base, name: Predefined) -> Rel
    ensures { (c : _) (reads_from coherence : _) → IsEntered base.now c
        → HasReadsFrom base.now c reads_from → HasCoherence base.now c coherence
        → SuppliesName base.now name
        → IsRelation result base.now.count (RelationIn name base.now.count c reads_from coherence) }
{
    let mut made = Rel::empty(base.count());
    base.write_relation(name, &mut made);
    made
}

/// The candidate as the only one of a combination.
fn combination(alloc: Global, execution: &Execution) -> Result<Combination, AllocError>
    ensures { IfOk result (λ c. HasFacts c execution.now) }
{
    Ok(Combination {
        events: Vec::from_slice(alloc, &execution.events)?,
        dependencies: execution.dependencies.copied(alloc)?,
        runs: Vec::new(alloc),
        reads_from: Vec::new(alloc),
        orders: StoreOrders::none(alloc),
    })
}

/// All predefined names of the present candidate.
fn env_of(base: &Base) -> BaseEnv
    ensures { (c : _) (reads_from coherence : List ℕ) → IsEntered base.now c
        → HasReadsFrom base.now c reads_from
        → HasCoherence base.now c coherence
        → ((name : _) → IsTrue (is_set name) → Contains (set_names base.now.sets) name)
        → ((name : _) → is_set name ≡ false → SuppliesName base.now name)
        → IsEnvironment result base.now.count c reads_from coherence }
{
    BaseEnv {
        all_set: EventSet::all(base.count()),
        r_set: base.set(Predefined::Loads),
        w_set: base.set(Predefined::Stores),
        m_set: base.set(Predefined::Accesses),
        f_set: base.set(Predefined::Fences),
        iw_set: base.set(Predefined::InitialStores),
        sync_set: base.set(Predefined::SyncFences),
        lwsync_set: base.set(Predefined::LwsyncFences),
        eieio_set: base.set(Predefined::EieioFences),
        isync_set: base.set(Predefined::IsyncFences),
        id_rel: relation(base, Predefined::Identity),
        po_rel: relation(base, Predefined::ProgramOrder),
        loc_rel: relation(base, Predefined::SameLocation),
        po_loc_rel: relation(base, Predefined::ProgramOrderSameLocation),
        int_rel: relation(base, Predefined::Internal),
        ext_rel: relation(base, Predefined::External),
        rf_rel: relation(base, Predefined::ReadsFrom),
        co_rel: relation(base, Predefined::Coherence),
        fr_rel: relation(base, Predefined::FromReads),
        rfe_rel: relation(base, Predefined::ReadsFromExternal),
        rfi_rel: relation(base, Predefined::ReadsFromInternal),
        coe_rel: relation(base, Predefined::CoherenceExternal),
        coi_rel: relation(base, Predefined::CoherenceInternal),
        fre_rel: relation(base, Predefined::FromReadsExternal),
        fri_rel: relation(base, Predefined::FromReadsInternal),
        com_rel: relation(base, Predefined::Communication),
        addr_rel: relation(base, Predefined::AddressDependency),
        data_rel: relation(base, Predefined::DataDependency),
        ctrl_rel: relation(base, Predefined::ControlDependency),
        ctrlisync_rel: relation(base, Predefined::ControlIsyncDependency),
        sync_rel: relation(base, Predefined::SyncOrder),
        lwsync_rel: relation(base, Predefined::LwsyncOrder),
        eieio_rel: relation(base, Predefined::EieioOrder),
        isync_rel: relation(base, Predefined::IsyncOrder),
    }
}

/// All predefined names of a candidate, over its events. Errors: want of memory.
pub fn base(alloc: Global, execution: &Execution) -> Result<BaseEnv, AllocError>
    ensures { IfOk result (λ env. (threads : _) (c : _) (t : _)
        → IsCandidateOf threads c t execution.now
        → IsEnvironment env (length c.events.items) c t.0 t.1) }
{
    let combination = combination(alloc, execution)?;
    let mut base = Base::new(alloc, &combination)?;
    base.read_from(&combination, &execution.reads_from);
    base.order(&combination, &execution.coherence);
    Ok(env_of(&base))
}
