//! The values of a name of a plain group.

ghost use Rattle.std.specs.Prelude.{◌≡◌, ◌<◌, ◌≤◌, ◌+◌, ◌-◌, ◌^◌, ◌++◌, List, length, Some, OnOk};
ghost use Rattle.cat_eval.specs.Runs.{IsBodyAt};
ghost use Rattle.cat_machine.specs.Seen.{NamedValues, seen_run};
ghost use Rattle.cat_machine.specs.Values.{column_len};

use crate::keeper::{Keeper, Spot};
use crate::runs::RunVisit;
use crate::spread::Spread;
use binding_graph::Body;
use cat_machine::{Column, NamedColumn};
use std::alloc::AllocError;

/// A body on its way through the candidates.
#[derive(Drop)]
pub(crate) struct BodyRun<'a> {
    pub(crate) body: &'a Body,
    pub(crate) inputs: &'a [&'a Column],
    pub(crate) keeper: Keeper,
    pub(crate) column: Column,
    /// Up to where the last value is good, in candidates of as many events.
    pub(crate) until: usize,
}

impl BodyRun<'_> {
    /// Makes the last value good for the next candidate, of so many events.
    fn evaluate(&mut self, named: &[NamedColumn], candidate: usize, count: usize)
        requires few { count ≤ 128 }
        requires more { candidate + 1 < 2 ^ 64 }
        ensures fixed { (self.new.body ≡ self.old.body) × (self.new.inputs ≡ self.old.inputs)
            × (self.new.column ≡ self.old.column) }
        ensures at { (bases : List NamedValues) → candidate ≡ length bases
            → IsBodyAt named.now self.old.body.now self.old.inputs.now bases self.old
            → IsBodyAt named.now self.old.body.now self.old.inputs.now bases self.new
            × (self.new.keeper.count ≡ Some count) × (candidate < self.new.until) }
    {
        if candidate < self.until && self.keeper.is_of(count) {
            return;
        }
        let spread = Spread {
            named,
            inputs: self.inputs,
        };
        let spot = Spot { candidate, count };
        self.until = self.keeper.run(&self.body.code.steps, &spread, spot);
    }

    /// Takes the next candidates that have one value, up to an end.
    fn take_run(
        &mut self,
        named: &[NamedColumn],
        count: usize,
        stop: usize,
    ) -> Result<(), AllocError>
        requires few { count ≤ 128 }
        requires more { column_len self.old.column < stop }
        ensures fixed { (self.new.body ≡ self.old.body) × (self.new.inputs ≡ self.old.inputs) }
        ensures longer { OnOk result ((column_len self.old.column < column_len self.new.column)
            × (column_len self.new.column ≤ stop)) }
        ensures at { (bases : List NamedValues)
            → IsBodyAt named.now self.old.body.now self.old.inputs.now bases self.old
            → OnOk result (IsBodyAt named.now self.old.body.now self.old.inputs.now
            (bases
            ++ seen_run named.now (length bases) count
            (column_len self.new.column - column_len self.old.column)) self.new) }
    {
        let candidate = self.column.len();
        self.evaluate(named, candidate, count);
        let end = self.until.min(stop).max(candidate + 1);
        self.column
            .push_run(&self.keeper.set(), self.keeper.relation(), end)?;
        Ok(())
    }
}

impl RunVisit for BodyRun<'_> {
    ghost has_taken = { λ named first bases run. (run.body ≡ first.body)
        × (run.inputs ≡ first.inputs) × IsBodyAt named first.body.now first.inputs.now bases run };

    fn visit_run(
        &mut self,
        named: &[NamedColumn],
        count: usize,
        many: usize,
    ) -> Result<(), AllocError> {
        let Some(stop) = self.column.len().checked_add(many) else {
            return Err(AllocError);
        };
        'runs: while self.column.len() < stop {
            self.take_run(named, count, stop)?;
        }
        Ok(())
    }
}
