//! Where items are evaluated.

ghost use Rattle.candidate_spaces.specs.declared.candidate.Space.{Space};
ghost use Rattle.cat_eval.specs.Needed.{ListsNeeded, role_names};
ghost use Rattle.cat_eval.specs.Tables.{IsOver, HasName};
ghost use Rattle.std.specs.Prelude.{OnOk, Contains};

use crate::needs::Needs;
use crate::table::Table;
use base_names::Base;
use binding_graph::ResolvedItem;
use bit_relations::Rel;
use candidates::Space;
use cat_machine::Machine;
use std::alloc::{AllocError, Global};

/// Where items are evaluated over the candidates of one space: the predefined names are made once,
/// and each item uses the memory of the ones before.
pub struct Evaluator {
    pub(crate) base: Base,
    pub(crate) table: Table,
    /// What the present item needs of a candidate.
    pub(crate) needs: Needs,
    pub(crate) machine: Machine,
    /// Relations whose memory is used again.
    pub(crate) slots: Vec<Rel>,
}

impl Drop for Evaluator {
    fn drop(self) {
        let Evaluator {
            base: _,
            table: _,
            needs: _,
            machine: _,
            slots: _,
        } = self;
    }
}

impl Evaluator {
    /// An evaluator that has evaluated nothing.
    pub fn new(alloc: Global) -> Evaluator
        ensures { (space : Space) → IsOver result space }
    {
        Evaluator {
            base: Base::empty(alloc),
            table: Table::new(alloc),
            needs: Needs::none(alloc),
            machine: Machine::new(alloc),
            slots: Vec::new(alloc),
        }
    }

    /// Makes the predefined names that some items need, in one go. An index that is no item's asks
    /// for nothing. Errors: want of memory.
    pub fn prepare(
        &mut self,
        alloc: Global,
        space: &Space,
        items: &[ResolvedItem],
        indexes: &[usize],
    ) -> Result<(), AllocError>
        requires { IsOver self.old space.now }
        ensures { IsOver self.new space.now }
    {
        self.needs.clear();
        for index in indexes {
            if *index < items.len() {
                self.needs.add_item(&items[*index])?;
            }
        }
        self.table
            .need(alloc, &mut self.base, space, &self.needs.names)
    }

    /// Makes the predefined names that an item needs, and notes which these are.
    /// Errors: want of memory.
    pub(crate) fn need_names(
        &mut self,
        alloc: Global,
        item: &ResolvedItem,
        space: &Space,
    ) -> Result<(), AllocError>
        requires { IsOver self.old space.now }
        ensures over { IsOver self.new space.now }
        ensures names { OnOk result (ListsNeeded self.new.needs.names.items
            (role_names item.now.role)) }
        ensures there { OnOk result ((name : _) → Contains self.new.needs.names.items name
            → HasName self.new.table.blocks.items name) }
    {
        self.needs.replace_by(item)?;
        self.table
            .need(alloc, &mut self.base, space, &self.needs.names)
    }
}
