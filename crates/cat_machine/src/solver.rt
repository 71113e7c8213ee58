//! The equations of a group in one candidate.

ghost use Rattle.std.specs.Prelude.{◌≡◌, ◌<◌, ◌≤◌, ◌∷◌, [], List, length, false, IsTrue, OnOk, IfOk, reverse, slice_index_or, slice_set};
ghost use Rattle.bit_rows.specs.Relation.{Relation, Events, IsRelation, IsEvents, IsSubset, no_slot};
ghost use Rattle.binding_graph.specs.Trees.{SetTree, RelTree, set_code, rel_code};
ghost use Rattle.cat_machine.specs.Least.{IsLeast, AreMonotone, body};
ghost use Rattle.cat_machine.specs.Meaning.{MeansSet, MeansRelation};
ghost use Rattle.cat_machine.specs.Named.{EventsIn, PairsOutside, WithOwn, OwnPairs};
ghost use Rattle.cat_machine.specs.Rising.{AreCodes, AreEmpty, IsFixpointRound, rooms};

use crate::column::Column;
use crate::machine::Machine;
use crate::names::Names;
use crate::rounds::{has_name, next_among, with_name};
use crate::seen::Seen;
use binding_graph::Body;
use bit_relations::Rel;
use std::alloc::{AllocError, Global};

/// The present values of the names of a recursive group: of another group none.
#[derive(Drop)]
pub struct Solver {
    own: Vec<Rel>,
}

/// A relation for each body.
fn values_of(alloc: Global, bodies: &[Body]) -> Result<Vec<Rel>, AllocError>
    ensures { IfOk result (λ v. length v.items ≡ length bodies.now) }
{
    let mut values = Vec::with_capacity(alloc, bodies.len())?;
    for _ in bodies {
        values.reserve(1)?;
        values.push_reserved(Rel::empty(0));
    }
    Ok(values)
}

impl Solver {
    /// For bodies that use no name of their own group.
    pub fn new(alloc: Global) -> Solver
        ensures { result.own.items ≡ [] }
    {
        Solver {
            own: Vec::new(alloc),
        }
    }

    /// For the bodies of a recursive group.
    pub fn of_group(alloc: Global, bodies: &[Body]) -> Result<Solver, AllocError>
        ensures { IfOk result (λ s. length s.own.items ≡ length bodies.now) }
    {
        Ok(Solver {
            own: values_of(alloc, bodies)?,
        })
    }

    /// Evaluates one body: its value is the uppermost one of the machine.
    pub fn evaluate(
        &self,
        machine: &mut Machine,
        body: &Body,
        base: &Seen,
        inputs: &[&Column],
        candidate: usize,
    ) -> Result<(), AllocError>
        ensures relation { OnOk result ((t : RelTree) → body.now.code.steps.items ≡ rel_code t []
            → (v : Relation) × (machine.new.relations ≡ v ∷ [])
            × IsRelation v base.now.count (MeansRelation base.now.count
            (EventsIn base.now inputs.now candidate)
            (WithOwn (PairsOutside base.now inputs.now candidate)
            (OwnPairs base.now.count self.now.own.items)) t)) }
        ensures set { OnOk result ((t : SetTree) → body.now.code.steps.items ≡ set_code t []
            → (v : Events) × (reverse machine.new.sets.items ≡ v ∷ [])
            × IsEvents v base.now.count (MeansSet base.now.count
            (EventsIn base.now inputs.now candidate) t)) }
    {
        let names = Names {
            base,
            inputs,
            own: &self.own,
            candidate,
        };
        machine.run(&body.code.steps, &names)?;
        Ok(())
    }

    /// The present values of the names of a recursive group.
    pub fn values(&self) -> &[Rel]
        ensures { result.now ≡ self.now.own.items }
    {
        &self.own
    }

    /// Joins the machine's uppermost relation into the present value of a name, and says whether
    /// that is a change.
    fn keep(&mut self, machine: &mut Machine, position: usize) -> bool
        requires { position < length self.old.own.items }
        ensures long { length self.new.own.items ≡ length self.old.own.items }
        ensures grown { IsTrue result → rooms self.new.own.items < rooms self.old.own.items }
        ensures kept { result ≡ false → self.new.own.items ≡ self.old.own.items }
        ensures value { (v : Relation) (rest : List Relation) → machine.old.relations ≡ v ∷ rest
            → v.count ≡ (slice_index_or self.old.own.items position no_slot).count
            → IsSubset (slice_index_or self.old.own.items position no_slot) v
            → self.new.own.items ≡ slice_set self.old.own.items position v }
    {
        machine.grow(&mut self.own[position])
    }

    /// Evaluates these names anew, and says which of them grew.
    fn round(
        &mut self,
        machine: &mut Machine,
        bodies: &[Body],
        base: &Seen,
        inputs: &[&Column],
        candidate: usize,
        names: u64,
    ) -> Result<u64, AllocError>
        ensures long { length self.new.own.items ≡ length self.old.own.items }
        ensures grown { IfOk result (λ grew. (grew ≡ 0 → ⊥)
            → rooms self.new.own.items < rooms self.old.own.items) }
        ensures solved { IfOk result (λ grew. (trees : List RelTree) → AreCodes trees bodies.now
            → AreMonotone trees
            → IsFixpointRound base.now.count (EventsIn base.now inputs.now candidate)
            (PairsOutside base.now inputs.now candidate) trees self.old.own.items names 0 0
            → IsFixpointRound base.now.count (EventsIn base.now inputs.now candidate)
            (PairsOutside base.now inputs.now candidate) trees self.new.own.items names
            (length trees) grew) }
    {
        let mut grew = 0;
        for position in 0..bodies.len() {
            if has_name(names, position) && position < self.own.len() {
                self.evaluate(machine, &bodies[position], base, inputs, candidate)?;
                if self.keep(machine, position) {
                    grew = with_name(grew, position);
                }
            }
        }
        Ok(grew)
    }

    /// Makes all names empty.
    fn clear(&mut self, count: usize)
        requires { count ≤ 128 }
        ensures long { length self.new.own.items ≡ length self.old.own.items }
        ensures empty { AreEmpty count (length self.new.own.items) self.new.own.items }
    {
        for position in 0..self.own.len() {
            self.own[position].clear(count);
        }
    }

    /// Repeats rounds until nothing grows: a round after the first evaluates only the names one
    /// of whose used names grew in the round before.
    pub fn solve(
        &mut self,
        machine: &mut Machine,
        bodies: &[Body],
        base: &Seen,
        inputs: &[&Column],
        candidate: usize,
    ) -> Result<(), AllocError>
        ensures long { length self.new.own.items ≡ length self.old.own.items }
        ensures least { OnOk result ((trees : List RelTree) → AreCodes trees bodies.now
            → AreMonotone trees → length self.old.own.items ≡ length bodies.now
            → IsLeast base.now.count (EventsIn base.now inputs.now candidate)
            (PairsOutside base.now inputs.now candidate) trees self.new.own.items) }
    {
        self.clear(base.count());
        let mut names = u64::MAX;
        'rounds: loop {
            let grew = self.round(machine, bodies, base, inputs, candidate, names)?;
            if grew == 0 {
                return Ok(());
            }
            names = next_among(bodies, grew);
        }
    }
}
