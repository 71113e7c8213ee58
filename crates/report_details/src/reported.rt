//! What a page shows.

use std::marker::Model;
use verdict::Outcome;

/// A model. Contracts see it as plain data.
#[derive(Drop)]
pub struct ReportedModel<'a> {
    /// The name by which it is called.
    pub name: &'a [u8],
    /// Its text.
    pub text: &'a [u8],
}

impl<'a> Model for ReportedModel<'a> {
    ghost use Rattle.report_details.specs.Reported as reported;

    ghost Value = { reported.ReportedModel };

    ghost view = { λ m. record { name = m.name.now; text = m.text.now } };
}

/// A test under the models. Contracts see it as plain data.
#[derive(Drop)]
pub struct ReportedTest<'a> {
    /// Its name.
    pub name: &'a [u8],
    /// Its text.
    pub text: &'a [u8],
    /// Its outcomes, in the order of the models.
    pub outcomes: &'a [Outcome],
    /// The drawing under each model, in their order; empty where none is drawn.
    pub drawings: &'a [Vec<u8>],
}

impl<'a> Model for ReportedTest<'a> {
    ghost use Rattle.std.specs.Prelude.{map};
    ghost use Rattle.report_details.specs.Reported as reported;

    ghost Value = { reported.ReportedTest };

    ghost view = { λ t. record {
      name = t.name.now;
      text = t.text.now;
      outcomes = t.outcomes.now;
      drawings = map (λ d. d.items) t.drawings.now;
    } };
}

/// What a page says beside models and tests. Contracts see it as plain data.
#[derive(Drop)]
pub struct Extras<'a> {
    /// What is told of the texts that are refused.
    pub refusals: &'a [u8],
    /// Of how many cells the drawings were left out.
    pub left_out: u64,
}

impl<'a> Model for Extras<'a> {
    ghost use Rattle.report_details.specs.Reported as reported;

    ghost Value = { reported.Extras };

    ghost view = { λ e. record { refusals = e.refusals.now; left_out = e.left_out } };
}
