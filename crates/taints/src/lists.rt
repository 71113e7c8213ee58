//! What is found of a run.

ghost use Rattle.std.specs.Prelude.{◌≡◌, ◌++◌, IsTrue, ◌↔◌, IfOk, OnOk};
ghost use Rattle.taints.specs.DependencyLists.{dependency_lists, link_lists, no_dependencies, renumbered_pairs, with_dependencies};

use std::alloc::{AllocError, Global};

/// The dependencies of several runs, as pairs of numbers of events, each list rising.
#[derive(Debug, Drop)]
pub struct Dependencies {
    /// Address dependencies: a load and an access whose address it reaches.
    pub addr_pairs: Vec<(usize, usize)>,
    /// Data dependencies: a load and a store whose stored register it reaches.
    pub data_pairs: Vec<(usize, usize)>,
    /// Control dependencies: a load and an event after a conditional branch whose CR0 it reaches.
    pub ctrl_pairs: Vec<(usize, usize)>,
    /// Control dependencies by an `isync`: a load and an event after an `isync` that is so behind
    /// the load.
    pub ctrlisync_pairs: Vec<(usize, usize)>,
}

/// The dependencies of a run (Alglave, Maranget and Tautschnig, Herding Cats, TOPLAS 36(2), 2014),
/// as pairs of numbers of events, each list rising. The number of an event is its index in the
/// run's list of events.
#[derive(Debug, Drop)]
pub struct Links {
    /// Address dependencies: a load and an access whose address it reaches.
    pub addr_pairs: Vec<(usize, usize)>,
    /// Data dependencies: a load and a store whose stored register it reaches.
    pub data_pairs: Vec<(usize, usize)>,
    /// Control dependencies: a load and an event after a conditional branch whose CR0 it reaches.
    pub ctrl_pairs: Vec<(usize, usize)>,
    /// Control dependencies by an `isync`: a load and an event after an `isync` that is so behind
    /// the load.
    pub ctrlisync_pairs: Vec<(usize, usize)>,
    /// As data, by chains through no exclusive or or difference of a register with itself.
    pub need_pairs: Vec<(usize, usize)>,
}

/// Adds pairs of events of a run whose first event has the number `base`. Errors: want of memory.
pub fn add_pairs(
    pairs: &mut Vec<(usize, usize)>,
    more: &[(usize, usize)],
    base: usize,
) -> Result<(), AllocError>
    ensures { OnOk result (pairs.new.items ≡ pairs.old.items ++ renumbered_pairs base more.now) }
{
    for (from, to) in more {
        pairs.push((base.saturating_add(*from), base.saturating_add(*to)))?;
    }
    Ok(())
}

fn are_same_pairs(first: &[(usize, usize)], second: &[(usize, usize)]) -> bool
    ensures { IsTrue result ↔ (first.now ≡ second.now) }
{
    first == second
}

impl Dependencies {
    /// No dependencies.
    pub fn none(alloc: Global) -> Dependencies
        ensures { dependency_lists result ≡ no_dependencies }
    {
        Dependencies {
            addr_pairs: Vec::new(alloc),
            data_pairs: Vec::new(alloc),
            ctrl_pairs: Vec::new(alloc),
            ctrlisync_pairs: Vec::new(alloc),
        }
    }

    /// The same once more. Errors: want of memory.
    pub fn copied(&self, alloc: Global) -> Result<Dependencies, AllocError>
        ensures { IfOk result (λ d. dependency_lists d ≡ dependency_lists self.now) }
    {
        Ok(Dependencies {
            addr_pairs: Vec::from_slice(alloc, &self.addr_pairs)?,
            data_pairs: Vec::from_slice(alloc, &self.data_pairs)?,
            ctrl_pairs: Vec::from_slice(alloc, &self.ctrl_pairs)?,
            ctrlisync_pairs: Vec::from_slice(alloc, &self.ctrlisync_pairs)?,
        })
    }

    /// Adds those of a run whose first event has the number `base`. Errors: want of memory.
    pub fn add(&mut self, more: &Links, base: usize) -> Result<(), AllocError>
        ensures { OnOk result (dependency_lists self.new
            ≡ with_dependencies base (link_lists more.now) (dependency_lists self.old)) }
    {
        add_pairs(&mut self.addr_pairs, &more.addr_pairs, base)?;
        add_pairs(&mut self.data_pairs, &more.data_pairs, base)?;
        add_pairs(&mut self.ctrl_pairs, &more.ctrl_pairs, base)?;
        add_pairs(&mut self.ctrlisync_pairs, &more.ctrlisync_pairs, base)?;
        Ok(())
    }

    /// Whether both have the same pairs in the same order.
    pub fn is_same(&self, other: &Dependencies) -> bool
        ensures { IsTrue result ↔ (dependency_lists self.now ≡ dependency_lists other.now) }
    {
        are_same_pairs(&self.addr_pairs, &other.addr_pairs)
            && are_same_pairs(&self.data_pairs, &other.data_pairs)
            && are_same_pairs(&self.ctrl_pairs, &other.ctrl_pairs)
            && are_same_pairs(&self.ctrlisync_pairs, &other.ctrlisync_pairs)
    }
}
