//! Why an edit is refused.

ghost use Rattle.std.specs.Prelude.{◌≡◌};
ghost use Rattle.bench_texts.specs.Numbers.{edit_fault_number};

use cat_syntax::CatFault;
use litmus_ppc::LitmusFault;
use std::alloc::AllocError;
use thiserror::Error;

/// Why an edit is refused, in the order in which the reasons are looked for.
#[derive(Debug, Drop, Error)]
pub enum EditFault {
    /// X1: there is no test of that name.
    #[error("none of the tests has this name")]
    NoTest,
    /// X2: there is no model of that name, or no model can have it.
    #[error("none of the models has this name")]
    NoModel,
    /// X3: the test has no thread of that number.
    #[error("no thread has this number")]
    NoThread,
    /// X4: the model has no item of that number.
    #[error("no item has this number")]
    NoItem,
    /// The text of the test, or of its part, is refused.
    #[error("the litmus text: {0}")]
    Test(LitmusFault),
    /// The text of the model, or of its item, is refused.
    #[error("the cat text: {0}")]
    Model(CatFault),
    /// X5: over 512 tests, 16 models or 524,288 outputs.
    #[error("the bench is full")]
    Full,
    /// X6: the numbers of edits or of items are spent.
    #[error("the numbers are spent")]
    Spent,
    /// A growth was refused.
    #[error("out of memory")]
    OutOfMemory(#[from(alloc)] AllocError),
}

impl EditFault {
    /// The number that a refusal by the bench is printed with, from 1 to 6. The refusal of a text
    /// has its own, and want of memory has none.
    pub fn number(&self) -> Option<u8>
        ensures { result ≡ edit_fault_number self.now }
    {
        match self {
            EditFault::NoTest => Some(1),
            EditFault::NoModel => Some(2),
            EditFault::NoThread => Some(3),
            EditFault::NoItem => Some(4),
            EditFault::Full => Some(5),
            EditFault::Spent => Some(6),
            EditFault::Test(_) => None,
            EditFault::Model(_) => None,
            EditFault::OutOfMemory(_) => None,
        }
    }
}
