//! What nodes are given, made of the texts.

ghost use Rattle.std.specs.Prelude.{◌≡◌, IfOk};
ghost use Rattle.binding_shapes.specs.Shapes.{role_shape};
ghost use Rattle.bench_values.specs.Givens.{ForSpace, ForItem, ForVerdict, ForFault, asked, faulted};
ghost use Rattle.bench_items.specs.Items.{shared_role, shared_outputs};
ghost use Rattle.bench_values.specs.Parts.{parts_of};

use crate::given::{FaultParts, Given, GivenParts, SpaceParts, VerdictParts};
use bench_items::SharedItem;
use binding_graph::ModelFault;
use std::alloc::{AllocError, Global};
use text_copies::{copied_condition, copied_entries, copied_names, copied_places, copied_threads};
use text_values::{Condition, InitEntry, Name, Place, Thread};

impl Given {
    /// What the space of these parts is given. Errors: out of memory.
    pub fn of_space(
        alloc: Global,
        init: &[InitEntry],
        threads: &[Thread],
        locations: &[Name],
    ) -> Result<Given, AllocError>
        ensures { IfOk result (λ g. g ≡ ForSpace (parts_of init.now threads.now locations.now)) }
    {
        let parts = SpaceParts {
            init: copied_entries(alloc, init)?,
            threads: copied_threads(alloc, threads)?,
            locations: copied_names(alloc, locations)?,
        };
        Given::new(alloc, GivenParts::Space(parts))
    }

    /// What a group, a check or a flag is given that is this item. Errors: out of memory.
    pub fn of_item(alloc: Global, item: &SharedItem) -> Result<Given, AllocError>
        ensures { let shape = role_shape (shared_role item.now) in
            IfOk result (λ g. g ≡ ForItem shape (shared_outputs item.now)) }
    {
        Given::new(alloc, GivenParts::Item(item.again()?))
    }

    /// What a verdict is given with this condition, these observables, and for each check and flag
    /// the name of the flag. Errors: out of memory.
    pub fn of_verdict(
        alloc: Global,
        condition: &Condition,
        observed: &[Place],
        flags: Vec<Option<Name>>,
    ) -> Result<Given, AllocError>
        ensures { IfOk result (λ g. g ≡ ForVerdict (asked condition.now observed.now flags.items)) }
    {
        let parts = VerdictParts {
            condition: copied_condition(alloc, condition)?,
            observed: copied_places(alloc, observed)?,
            flags,
        };
        Given::new(alloc, GivenParts::Verdict(parts))
    }

    /// What a verdict is given with this condition under a model with this fault. Errors: out of
    /// memory.
    pub fn of_fault(
        alloc: Global,
        condition: &Condition,
        fault: ModelFault,
    ) -> Result<Given, AllocError>
        ensures { IfOk result (λ g. g ≡ ForFault (faulted condition.now fault)) }
    {
        let parts = FaultParts {
            condition: copied_condition(alloc, condition)?,
            fault,
        };
        Given::new(alloc, GivenParts::Fault(parts))
    }
}
