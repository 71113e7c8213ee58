//! What the lines are of.

use std::marker::Model;
use verdict::Outcome;

/// A test under a model, each by its name, and the path of the test.
#[derive(Drop)]
pub struct Subject<'a> {
    /// The path, as the words of the command give it.
    pub path: &'a [u8],
    /// The test's name.
    pub test: &'a [u8],
    /// The model's name.
    pub model: &'a [u8],
}

impl<'a> Model for Subject<'a> {
    ghost use Rattle.outcome_lines.specs.Subjects as subjects;

    ghost Value = { subjects.Subject };

    ghost view = { λ s. record { path = s.path.now; test = s.test.now; model = s.model.now } };
}

/// The outcome of a test under the model of this name.
#[derive(Drop)]
pub struct ModelOutcome<'a> {
    /// The model's name.
    pub model: &'a [u8],
    /// The outcome.
    pub outcome: &'a Outcome,
}

/// A text that is refused.
#[derive(Drop)]
pub struct TextRefusal<'a> {
    /// Its path, as the words of the command give it.
    pub path: &'a [u8],
    /// The rule as it is written, as `L9`.
    pub rule: &'a [u8],
    /// The offset at which it is blamed.
    pub offset: u64,
    /// The line of the offset, from 1.
    pub line: u64,
    /// The column of the offset in bytes, from 1.
    pub column: u64,
}

impl<'a> Model for TextRefusal<'a> {
    ghost use Rattle.outcome_lines.specs.Subjects as subjects;

    ghost Value = { subjects.TextRefusal };

    ghost view = { λ r. record {
      path = r.path.now;
      rule = r.rule.now;
      offset = r.offset;
      line = r.line;
      column = r.column;
    } };
}

/// A text at a path, under some models.
#[derive(Drop)]
pub enum TestResult<'a> {
    /// It was refused.
    Refused(&'a TextRefusal<'a>),
    /// It is a test: its path, its name, and an outcome for each model.
    Tested(&'a [u8], &'a [u8], &'a [ModelOutcome<'a>]),
}
