//! What an edit puts in the place of what.

use crate::model::NamedModel;
use text_values::Test;

/// What an edit puts in the place of what: whole tests and whole models.
#[derive(Drop)]
pub enum Replacement {
    /// A test takes an index, which is the number of tests where it is a new one.
    PutTest {
        /// The index of the test.
        at: usize,
        /// The whole test.
        test: Test,
    },
    /// A test goes.
    DropTest {
        /// The index of the test.
        at: usize,
    },
    /// A model takes an index, which is the number of models where it is a new one.
    PutModel {
        /// The index of the model.
        at: usize,
        /// The whole model.
        model: NamedModel,
        /// The number that the next item is given afterwards.
        next: u64,
    },
    /// A model goes.
    DropModel {
        /// The index of the model.
        at: usize,
    },
}
