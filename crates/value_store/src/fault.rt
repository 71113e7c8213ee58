//! Why a store does not take a value.

ghost use Rattle.std.specs.Prelude.{◌≡◌};
ghost use Rattle.value_store.specs.Tokens.{store_fault_number};

use thiserror::Error;

/// Why a store does not take a value. The refusal hands the value back beside it.
#[derive(Clone, Copy, Debug, PartialEq, Eq, Error)]
pub enum StoreFault {
    /// S1: as many values as its limit were put into it.
    #[error("the store is full")]
    StoreFull,
    /// A growth was refused.
    #[error("out of memory")]
    OutOfMemory,
}

impl StoreFault {
    /// The number that a refusal is printed with: 1 for a full store. Want of memory has none.
    pub fn number(self) -> Option<u8>
        ensures { result ≡ store_fault_number self }
    {
        match self {
            StoreFault::StoreFull => Some(1),
            StoreFault::OutOfMemory => None,
        }
    }
}
