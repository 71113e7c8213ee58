//! A model evaluated over the candidates of a test.

ghost use Rattle.std.specs.Prelude.{◌≡◌, IfOk};
ghost use Rattle.why_forbidden.specs.Evaluated.{AreModelValues};

use crate::checks::{CheckValues, all_checks};
use crate::labels::predefined_values;
use crate::telling::Judged;
use binding_graph::Resolved;
use candidates::Space;
use from_scratch::{ItemAnswers, answers};
use std::alloc::{AllocError, Global};
use text_values::ModelText;
use why_labels::{NameValues, PredefinedValue};

/// The values of the names and the checks of a model in each candidate.
pub struct Evaluated<'a> {
    /// What is found of the items.
    pub answers: ItemAnswers<'a>,
    /// The checks that are no flags.
    pub checks: Vec<CheckValues<'a>>,
    /// The names of the language.
    pub predefined: Vec<PredefinedValue>,
}

impl<'a> Drop for Evaluated<'a> {
    fn drop(self) {
        let Evaluated {
            answers: _,
            checks: _,
            predefined: _,
        } = self;
    }
}

impl<'a> Evaluated<'a> {
    /// The values of a resolved model over a space. Errors: want of memory.
    pub fn of(
        alloc: Global,
        space: &Space,
        resolved: &'a Resolved,
    ) -> Result<Evaluated<'a>, AllocError>
        ensures { IfOk result (AreModelValues space.now resolved.now.items.items) }
    {
        let found = answers(alloc, space, resolved)?;
        let checks = all_checks(alloc, space, &found.columns, &resolved.items)?;
        let predefined = predefined_values(alloc, space)?;
        Ok(Evaluated {
            answers: found,
            checks,
            predefined,
        })
    }

    /// The model with these values.
    pub fn as_judged<'b>(&'b self, model: &'b ModelText, resolved: &'b Resolved) -> Judged<'b>
        ensures text { result.text.now ≡ model.now.items.items }
        ensures items { result.items.now ≡ resolved.now.items.items }
        ensures bound { result.values.bound.now ≡ self.now.answers.columns.items }
        ensures predefined { result.values.predefined.now ≡ self.now.predefined.items }
        ensures checks { result.checks.now ≡ self.now.checks.items }
    {
        Judged {
            text: &model.items,
            items: &resolved.items,
            values: NameValues {
                bound: &self.answers.columns,
                predefined: &self.predefined,
            },
            checks: &self.checks,
        }
    }
}
