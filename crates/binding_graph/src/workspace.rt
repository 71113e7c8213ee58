//! The lists that reading an item fills.

ghost use Rattle.std.specs.Prelude.{◌≡◌, []};
ghost use Rattle.binding_graph.specs.Lowering.{lowering_start};
ghost use Rattle.binding_graph.specs.Stacks.{state_of};

use crate::lower::Lowering;
use crate::uses::Uses;
use binding_functions::Template;
use std::alloc::Global;

/// The lists that reading an item fills: one item after another is read with the same memory.
#[derive(Drop)]
pub struct Workspace {
    /// An expression in postfix order.
    pub template: Template,
    /// Its steps.
    pub lowering: Lowering,
    /// What the item uses.
    pub uses: Uses,
}

impl Workspace {
    /// With nothing in them.
    pub fn new(alloc: Global) -> Workspace
        ensures template { result.template.pieces.items ≡ [] }
        ensures lowering { state_of result.lowering ≡ lowering_start }
        ensures values { result.uses.values.items ≡ [] }
        ensures functions { result.uses.functions.items ≡ [] }
    {
        Workspace {
            template: Template::new(alloc),
            lowering: Lowering::new(alloc),
            uses: Uses::new(alloc),
        }
    }
}
