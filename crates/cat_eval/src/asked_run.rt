//! Whether a check holds, where many candidates are asked.

ghost use Rattle.std.specs.Prelude.{◌≡◌, ◌<◌, ◌≤◌, ◌+◌, ◌^◌, ◌++◌, ◌∷◌, [], List, length, Some, IsTrue, OnOk};
ghost use Rattle.cat_eval.specs.Runs.{IsAskedAt};
ghost use Rattle.cat_machine.specs.Seen.{NamedValues, values_seen};

use crate::check::{is_asked_at, is_held};
use crate::keeper::{Keeper, Spot};
use crate::runs::RunVisit;
use crate::spread::Spread;
use binding_graph::CheckCode;
use cat_machine::{Column, NamedColumn};
use std::alloc::AllocError;

/// A check on its way through the candidates.
#[derive(Drop)]
pub(crate) struct AskedRun<'a> {
    pub(crate) check: &'a CheckCode,
    pub(crate) inputs: &'a [&'a Column],
    /// Whether each candidate is kept. Without a list all are.
    pub(crate) kept: Option<&'a [bool]>,
    pub(crate) keeper: Keeper,
    pub(crate) answers: Vec<bool>,
    /// The last answer, if there is one.
    pub(crate) known: Option<bool>,
    /// Up to where it is good, in candidates of as many events.
    pub(crate) until: usize,
}

impl AskedRun<'_> {
    /// Makes the last answer good for a candidate of so many events.
    fn evaluate(&mut self, named: &[NamedColumn], candidate: usize, count: usize)
        requires few { count ≤ 128 }
        requires more { candidate + 1 < 2 ^ 64 }
        ensures fixed { (self.new.check ≡ self.old.check) × (self.new.inputs ≡ self.old.inputs)
            × (self.new.kept ≡ self.old.kept) × (self.new.answers ≡ self.old.answers) }
        ensures at { (bases : List NamedValues) → candidate ≡ length bases
            → IsAskedAt named.now self.old.check.now self.old.inputs.now self.old.kept bases
            self.old
            → IsAskedAt named.now self.old.check.now self.old.inputs.now self.old.kept bases
            self.new × (self.new.keeper.count ≡ Some count) × (candidate < self.new.until) }
    {
        if candidate < self.until && self.keeper.is_of(count) {
            return;
        }
        let spread = Spread {
            named,
            inputs: self.inputs,
        };
        let spot = Spot { candidate, count };
        self.until = self.keeper.run(&self.check.code.steps, &spread, spot);
        let met = self
            .keeper
            .is_as_asked(self.check.code.kind, self.check.word);
        self.known = Some(met != self.check.negated);
    }

    /// Makes the last answer good for a candidate of so many events, where it is asked.
    fn evaluate_asked(&mut self, named: &[NamedColumn], candidate: usize, count: usize, asked: bool)
        requires few { count ≤ 128 }
        requires more { candidate + 1 < 2 ^ 64 }
        ensures fixed { (self.new.check ≡ self.old.check) × (self.new.inputs ≡ self.old.inputs)
            × (self.new.kept ≡ self.old.kept) × (self.new.answers ≡ self.old.answers) }
        ensures at { (bases : List NamedValues) → candidate ≡ length bases
            → IsAskedAt named.now self.old.check.now self.old.inputs.now self.old.kept bases
            self.old
            → IsAskedAt named.now self.old.check.now self.old.inputs.now self.old.kept bases
            self.new
            × (IsTrue asked
            → (self.new.keeper.count ≡ Some count) × (candidate < self.new.until)) }
    {
        if !asked {
            return;
        }
        self.evaluate(named, candidate, count);
    }

    /// Takes the next candidate, of so many events.
    fn take(&mut self, named: &[NamedColumn], count: usize) -> Result<(), AllocError>
        requires few { count ≤ 128 }
        ensures fixed { (self.new.check ≡ self.old.check) × (self.new.inputs ≡ self.old.inputs)
            × (self.new.kept ≡ self.old.kept) }
        ensures at { (bases : List NamedValues)
            → IsAskedAt named.now self.old.check.now self.old.inputs.now self.old.kept bases
            self.old
            → OnOk result (IsAskedAt named.now self.old.check.now self.old.inputs.now self.old.kept
            (bases ++ values_seen named.now (length bases) count ∷ []) self.new) }
    {
        let candidate = self.answers.len();
        if candidate == usize::MAX {
            return Err(AllocError);
        }
        let asked = is_asked_at(self.kept, candidate);
        self.evaluate_asked(named, candidate, count, asked);
        self.answers.push(is_held(asked, self.known))?;
        Ok(())
    }
}

impl RunVisit for AskedRun<'_> {
    ghost has_taken = { λ named first bases run. (run.check ≡ first.check)
        × (run.inputs ≡ first.inputs) × (run.kept ≡ first.kept)
        × IsAskedAt named first.check.now first.inputs.now first.kept bases run };

    fn visit_run(
        &mut self,
        named: &[NamedColumn],
        count: usize,
        many: usize,
    ) -> Result<(), AllocError> {
        for _at in 0..many {
            self.take(named, count)?;
        }
        Ok(())
    }
}
