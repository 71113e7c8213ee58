//! The value of a node.

ghost use Rattle.std.specs.Prelude.{◌≡◌, ◌↔◌, IsTrue, option_map};
ghost use Rattle.cat_machine.specs.Values.{column_len};
ghost use Rattle.bench_values.specs.Spaces.{space_content};
ghost use Rattle.bench_values.specs.Values.{OfSpace, OfRefusal, OfColumn, OfCheck, OfOutcome, column_of, column_value, space_in, column_in, check_in, outcome_in, refusal_in};
ghost use Rattle.bench_values.specs.Views.{value_content};

use candidates::{EvalRefusal, Space};
use cat_eval::Column;
use std::alloc::Global;
use std::marker::Model;
use verdict::Outcome;

/// What a node holds.
#[derive(Drop)]
pub enum ValueContent {
    /// The space of a test.
    Space(Space),
    /// Why a test has no space.
    Refused(EvalRefusal),
    /// The value of a name in each candidate.
    Column(Column),
    /// Whether the check of a check or a flag holds, for each candidate.
    Check(Vec<bool>),
    /// The outcome of a test under a model.
    Outcome(Outcome),
}

/// The value of a node. Contracts see it as plain data: two that show the same are equal.
pub struct NodeValue {
    content: ValueContent,
}

impl Drop for NodeValue {
    fn drop(self) {
        let NodeValue { content: _ } = self;
    }
}

impl Model for NodeValue {
    ghost use Rattle.bench_values.specs.Values.{NodeContent};

    ghost Value = { NodeContent };

    ghost use Rattle.bench_values.specs.Views.{value_content};

    ghost view = { λ v. value_content v.content };
}

fn same_answers(these: &[bool], those: &[bool]) -> bool
    ensures { IsTrue result ↔ (these.now ≡ those.now) }
{
    these == those
}

// The column, where it has values: without any, that of sets, whatever its kind.
#[tactic(auto, using(crate::proofs::Emptied::without_values, crate::proofs::Emptied::with_values))]
fn one_if_empty(alloc: Global, column: Column) -> Column
    ensures { result ≡ column_of (column_len column) column }
{
    if column.is_empty() {
        Column::of_sets(alloc)
    } else {
        column
    }
}

impl ValueContent {
    fn space(&self) -> Option<&Space>
        ensures { option_map (λ s. space_content s.now) result ≡ space_in (value_content self.now) }
    {
        match self {
            ValueContent::Space(space) => Some(space),
            ValueContent::Refused(_) => None,
            ValueContent::Column(_) => None,
            ValueContent::Check(_) => None,
            ValueContent::Outcome(_) => None,
        }
    }

    fn column(&self) -> Option<&Column>
        ensures { option_map (λ c. c.now) result ≡ column_in (value_content self.now) }
    {
        match self {
            ValueContent::Column(column) => Some(column),
            ValueContent::Space(_) => None,
            ValueContent::Refused(_) => None,
            ValueContent::Check(_) => None,
            ValueContent::Outcome(_) => None,
        }
    }

    fn check(&self) -> Option<&[bool]>
        ensures { option_map (λ c. c.now) result ≡ check_in (value_content self.now) }
    {
        match self {
            ValueContent::Check(answers) => Some(answers.as_slice()),
            ValueContent::Space(_) => None,
            ValueContent::Refused(_) => None,
            ValueContent::Column(_) => None,
            ValueContent::Outcome(_) => None,
        }
    }

    fn outcome(&self) -> Option<&Outcome>
        ensures { option_map (λ o. o.now) result ≡ outcome_in (value_content self.now) }
    {
        match self {
            ValueContent::Outcome(outcome) => Some(outcome),
            ValueContent::Space(_) => None,
            ValueContent::Refused(_) => None,
            ValueContent::Column(_) => None,
            ValueContent::Check(_) => None,
        }
    }

    fn refusal(&self) -> Option<EvalRefusal>
        ensures { result ≡ refusal_in (value_content self.now) }
    {
        match self {
            ValueContent::Refused(refusal) => Some(*refusal),
            ValueContent::Space(_) => None,
            ValueContent::Column(_) => None,
            ValueContent::Check(_) => None,
            ValueContent::Outcome(_) => None,
        }
    }
}

impl ValueContent {
    fn is_space(&self, space: &Space) -> bool
        ensures { IsTrue result ↔ (OfSpace (space_content space.now) ≡ value_content self.now) }
    {
        match self {
            ValueContent::Space(other) => space.is_same(other),
            ValueContent::Refused(_) => false,
            ValueContent::Column(_) => false,
            ValueContent::Check(_) => false,
            ValueContent::Outcome(_) => false,
        }
    }

    fn is_refusal(&self, refusal: EvalRefusal) -> bool
        ensures { IsTrue result ↔ (OfRefusal refusal ≡ value_content self.now) }
    {
        match self {
            ValueContent::Space(_) => false,
            ValueContent::Refused(other) => refusal == *other,
            ValueContent::Column(_) => false,
            ValueContent::Check(_) => false,
            ValueContent::Outcome(_) => false,
        }
    }

    fn is_column(&self, column: &Column) -> bool
        ensures { IsTrue result ↔ (OfColumn column.now ≡ value_content self.now) }
    {
        match self {
            ValueContent::Space(_) => false,
            ValueContent::Refused(_) => false,
            ValueContent::Column(other) => column.is_same(other),
            ValueContent::Check(_) => false,
            ValueContent::Outcome(_) => false,
        }
    }

    fn is_check(&self, answers: &[bool]) -> bool
        ensures { IsTrue result ↔ (OfCheck answers.now ≡ value_content self.now) }
    {
        match self {
            ValueContent::Space(_) => false,
            ValueContent::Refused(_) => false,
            ValueContent::Column(_) => false,
            ValueContent::Check(other) => same_answers(answers, other),
            ValueContent::Outcome(_) => false,
        }
    }

    fn is_outcome(&self, outcome: &Outcome) -> bool
        ensures { IsTrue result ↔ (OfOutcome outcome.now ≡ value_content self.now) }
    {
        match self {
            ValueContent::Space(_) => false,
            ValueContent::Refused(_) => false,
            ValueContent::Column(_) => false,
            ValueContent::Check(_) => false,
            ValueContent::Outcome(other) => outcome.is_same(other),
        }
    }

    fn is_same(&self, other: &ValueContent) -> bool
        ensures { IsTrue result ↔ (value_content self.now ≡ value_content other.now) }
    {
        match self {
            ValueContent::Space(space) => other.is_space(space),
            ValueContent::Refused(refusal) => other.is_refusal(*refusal),
            ValueContent::Column(column) => other.is_column(column),
            ValueContent::Check(answers) => other.is_check(answers),
            ValueContent::Outcome(outcome) => other.is_outcome(outcome),
        }
    }
}

impl NodeValue {
    /// Whether both hold the same: exactly, and without memory.
    pub fn is_same(&self, other: &NodeValue) -> bool
        ensures { IsTrue result ↔ (self.now ≡ other.now) }
    {
        self.content.is_same(&other.content)
    }

    /// The value of a node of spaces.
    pub fn of_space(space: Space) -> NodeValue
        ensures { result ≡ OfSpace (space_content space) }
    {
        NodeValue {
            content: ValueContent::Space(space),
        }
    }

    /// That of one whose test has no space.
    pub fn of_refusal(refusal: EvalRefusal) -> NodeValue
        ensures { result ≡ OfRefusal refusal }
    {
        NodeValue {
            content: ValueContent::Refused(refusal),
        }
    }

    /// The value of a name of a group. Columns without a value are one, whatever their kind.
    pub fn of_column(alloc: Global, column: Column) -> NodeValue
        ensures { result ≡ column_value column }
    {
        NodeValue {
            content: ValueContent::Column(one_if_empty(alloc, column)),
        }
    }

    /// The value of a check or a flag.
    pub fn of_check(answers: Vec<bool>) -> NodeValue
        ensures { result ≡ OfCheck answers.items }
    {
        NodeValue {
            content: ValueContent::Check(answers),
        }
    }

    /// The value of a verdict.
    pub fn of_outcome(outcome: Outcome) -> NodeValue
        ensures { result ≡ OfOutcome outcome }
    {
        NodeValue {
            content: ValueContent::Outcome(outcome),
        }
    }

    /// The space, if it is one.
    pub fn space(&self) -> Option<&Space>
        ensures { option_map (λ s. space_content s.now) result ≡ space_in self.now }
    {
        self.content.space()
    }

    /// The column, if it is one.
    pub fn column(&self) -> Option<&Column>
        ensures { option_map (λ c. c.now) result ≡ column_in self.now }
    {
        self.content.column()
    }

    /// The answers of a check or a flag, if it holds such.
    pub fn check(&self) -> Option<&[bool]>
        ensures { option_map (λ c. c.now) result ≡ check_in self.now }
    {
        self.content.check()
    }

    /// The outcome, if it is one.
    pub fn outcome(&self) -> Option<&Outcome>
        ensures { option_map (λ o. o.now) result ≡ outcome_in self.now }
    {
        self.content.outcome()
    }

    /// Why a test has no space, if it says so.
    pub fn refusal(&self) -> Option<EvalRefusal>
        ensures { result ≡ refusal_in self.now }
    {
        self.content.refusal()
    }
}
