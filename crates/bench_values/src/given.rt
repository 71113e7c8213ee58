//! What a node is given of the texts.

ghost use Rattle.std.specs.Prelude.{◌≡◌, ◌↔◌, IsTrue, IfOk};
ghost use Rattle.text_values.specs.TestValue.{formula_of};
ghost use Rattle.binding_shapes.specs.Shapes.{role_shape};
ghost use Rattle.bench_values.specs.Givens.{ForSpace, ForItem, ForVerdict, ForFault, asked, faulted, given_flags};
ghost use Rattle.bench_items.specs.Items.{shared_role, shared_outputs};
ghost use Rattle.bench_values.specs.Makes.{output_names};
ghost use Rattle.bench_values.specs.Parts.{parts_of};
ghost use Rattle.bench_values.specs.Views.{given_content};

use crate::same::{same_flags, same_threads};
use bench_items::{SharedItem, only_zero, same_outputs};
use binding_graph::ModelFault;
use binding_shapes::same_shape;
use std::alloc::{AllocError, Global};
use std::marker::Model;
use std::sync::Arc;
use text_equality::{are_same_entries, are_same_places, is_same_condition};
use text_values::{Condition, InitEntry, Name, Place, Thread, are_same_names};

/// The parts of a test that its space reads.
#[derive(Drop)]
pub struct SpaceParts {
    /// The initial values.
    pub init: Vec<InitEntry>,
    /// The threads.
    pub threads: Vec<Thread>,
    /// The names of the test's locations.
    pub locations: Vec<Name>,
}

/// The parts that a verdict under a model without fault reads.
#[derive(Drop)]
pub struct VerdictParts {
    /// The condition of the test.
    pub condition: Condition,
    /// The observables that states show beside those of the condition.
    pub observed: Vec<Place>,
    /// For each check and flag of the model, in the order of the text, the name of the flag; none
    /// for a check.
    pub flags: Vec<Option<Name>>,
}

/// The parts that a verdict under a model with a fault reads.
#[derive(Drop)]
pub struct FaultParts {
    /// The condition of the test.
    pub condition: Condition,
    /// The first fault of the model.
    pub fault: ModelFault,
}

/// What a node is given, by its kind.
#[derive(Drop)]
pub enum GivenParts {
    /// What the space of a test is given.
    Space(SpaceParts),
    /// What a group, a check or a flag is given: an item, of which contracts see what it does,
    /// without kinds, and the numbers of its outputs.
    Item(SharedItem),
    /// What a verdict is given.
    Verdict(VerdictParts),
    /// What a verdict is given under a model with a fault.
    Fault(FaultParts),
}

/// What a node is given of the texts, which jobs share. Contracts see it as plain data.
pub struct Given {
    pub(crate) parts: Arc<GivenParts>,
}

impl Drop for Given {
    fn drop(self) {
        let Given { parts: _ } = self;
    }
}

impl Model for Given {
    ghost use Rattle.std.specs.Coded.{codes};
    ghost use Rattle.std.specs.Arc.{arc_value};
    ghost use Rattle.bench_values.specs.Lemmas.Codes.{formula_code};
    ghost use Rattle.bench_values.specs.Givens.{GivenContent};

    ghost Value = { GivenContent };

    ghost coded = { Prim.hlevel (codes, formula_code) };

    ghost use Rattle.bench_values.specs.Views.{given_content};

    ghost view = { λ g. given_content (arc_value g.parts) };
}

fn same_condition(this: &Condition, that: &Condition) -> bool
    ensures { IsTrue result
        ↔ ((this.now.quantifier ≡ that.now.quantifier)
        × (formula_of this.now.proposition ≡ formula_of that.now.proposition)) }
{
    is_same_condition(this, that)
}

#[tactic(auto, using(crate::proofs::Outputs::same_from, crate::proofs::Outputs::same_back))]
fn same_item(this: &SharedItem, that: &SharedItem) -> bool
    ensures { IsTrue result
        ↔ ((role_shape (shared_role this.now) ≡ role_shape (shared_role that.now))
        × (shared_outputs this.now ≡ shared_outputs that.now)) }
{
    let role = &this.item().role;
    same_shape(role, &that.item().role) && same_outputs(role, this.history(), that.history())
}

impl GivenParts {
    fn flags(&self) -> &[Option<Name>]
        ensures { result.now ≡ given_flags (given_content self.now) }
    {
        match self {
            GivenParts::Space(_) => &[],
            GivenParts::Item(_) => &[],
            GivenParts::Verdict(parts) => &parts.flags,
            GivenParts::Fault(_) => &[],
        }
    }

    fn is_space(&self, init: &[InitEntry], threads: &[Thread], locations: &[Name]) -> bool
        ensures { IsTrue result
            ↔ (ForSpace (parts_of init.now threads.now locations.now) ≡ given_content self.now) }
    {
        match self {
            GivenParts::Space(parts) => {
                are_same_entries(init, &parts.init)
                    && same_threads(threads, &parts.threads)
                    && are_same_names(locations, &parts.locations)
            }
            GivenParts::Item(_) => false,
            GivenParts::Verdict(_) => false,
            GivenParts::Fault(_) => false,
        }
    }

    fn output_names(&self, alloc: Global) -> Result<Vec<u64>, AllocError>
        ensures { IfOk result (λ v. v.items ≡ output_names (given_content self.now)) }
    {
        match self {
            GivenParts::Space(_) => only_zero(alloc),
            GivenParts::Item(item) => item.output_names(alloc),
            GivenParts::Verdict(_) => only_zero(alloc),
            GivenParts::Fault(_) => only_zero(alloc),
        }
    }

    fn is_item(&self, item: &SharedItem) -> bool
        ensures { let shape = role_shape (shared_role item.now) in
            IsTrue result
            ↔ (ForItem shape (shared_outputs item.now) ≡ given_content self.now) }
    {
        match self {
            GivenParts::Space(_) => false,
            GivenParts::Item(other) => same_item(item, other),
            GivenParts::Verdict(_) => false,
            GivenParts::Fault(_) => false,
        }
    }

    fn is_verdict(&self, condition: &Condition, observed: &[Place], flags: &[Option<Name>]) -> bool
        ensures { IsTrue result
            ↔ (ForVerdict (asked condition.now observed.now flags.now) ≡ given_content self.now) }
    {
        match self {
            GivenParts::Space(_) => false,
            GivenParts::Item(_) => false,
            GivenParts::Verdict(parts) => {
                same_condition(condition, &parts.condition)
                    && are_same_places(observed, &parts.observed)
                    && same_flags(flags, &parts.flags)
            }
            GivenParts::Fault(_) => false,
        }
    }

    fn is_fault(&self, condition: &Condition, fault: ModelFault) -> bool
        ensures { IsTrue result
            ↔ (ForFault (faulted condition.now fault) ≡ given_content self.now) }
    {
        match self {
            GivenParts::Space(_) => false,
            GivenParts::Item(_) => false,
            GivenParts::Verdict(_) => false,
            GivenParts::Fault(parts) => {
                same_condition(condition, &parts.condition) && fault == parts.fault
            }
        }
    }
}

impl Given {
    /// What a node is given, of these parts. Errors: out of memory.
    pub fn new(alloc: Global, parts: GivenParts) -> Result<Given, AllocError>
        ensures { IfOk result (λ g. g ≡ given_content parts) }
    {
        Ok(Given {
            parts: Arc::new(alloc, parts)?,
        })
    }

    /// The same once more, for another job. Errors: too many of them.
    pub fn again(&self) -> Result<Given, AllocError>
        ensures { IfOk result (λ g. g ≡ self.now) }
    {
        Ok(Given {
            parts: Arc::try_clone(&self.parts)?,
        })
    }

    /// Which checks a verdict is told to be flags, by their names; none where it is for another
    /// node.
    pub fn flags(&self) -> &[Option<Name>]
        ensures { result.now ≡ given_flags self.now }
    {
        self.parts.flags()
    }

    /// Whether it is what the space of these parts is given.
    pub fn is_space(&self, init: &[InitEntry], threads: &[Thread], locations: &[Name]) -> bool
        ensures { IsTrue result
            ↔ (ForSpace (parts_of init.now threads.now locations.now) ≡ self.now) }
    {
        self.parts.is_space(init, threads, locations)
    }

    /// The numbers by which the outputs of the node go, in the order of its values: of a group
    /// those of its names in its history, of each other node 0. Errors: out of memory.
    pub fn output_names(&self, alloc: Global) -> Result<Vec<u64>, AllocError>
        ensures { IfOk result (λ v. v.items ≡ output_names self.now) }
    {
        self.parts.output_names(alloc)
    }

    /// Whether it is what a group, a check or a flag is given that does what this item does, kinds
    /// left out, and whose outputs go by the same numbers.
    pub fn is_item(&self, item: &SharedItem) -> bool
        ensures { let shape = role_shape (shared_role item.now) in
            IsTrue result ↔ (ForItem shape (shared_outputs item.now) ≡ self.now) }
    {
        self.parts.is_item(item)
    }

    /// Whether it is what a verdict is given with this condition, these observables, and for each
    /// check and flag the name of the flag.
    pub fn is_verdict(
        &self,
        condition: &Condition,
        observed: &[Place],
        flags: &[Option<Name>],
    ) -> bool
        ensures { IsTrue result
            ↔ (ForVerdict (asked condition.now observed.now flags.now) ≡ self.now) }
    {
        self.parts.is_verdict(condition, observed, flags)
    }

    /// Whether it is what a verdict is given with this condition under a model with this fault.
    pub fn is_fault(&self, condition: &Condition, fault: ModelFault) -> bool
        ensures { IsTrue result ↔ (ForFault (faulted condition.now fault) ≡ self.now) }
    {
        self.parts.is_fault(condition, fault)
    }
}
