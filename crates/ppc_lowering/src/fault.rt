//! Why a test has no domain, or no list of candidates.

ghost use Rattle.std.specs.Prelude.{◌≡◌};
ghost use Rattle.ppc_lowering.specs.Numbers.{number};

use std::alloc::AllocError;
use thiserror::Error;

/// A limit that a test exceeds, or an access to an address that no location has. A domain is
/// refused by E1, E2, E3 or E6, a list of candidates by any of them.
#[derive(Clone, Copy, Debug, PartialEq, Eq)]
pub enum EvalRefusal {
    /// E1: over 128 locations, loads, stores and fences by text.
    TooManyEvents,
    /// E2: over 16 values that loads can read.
    TooManyValues,
    /// E3: over 4,096 free runs of a thread.
    TooManyRuns,
    /// E4: over 16,384 candidates.
    TooManyCandidates,
    /// E5: a candidate has a run that stopped at a fault.
    AddressFault,
    /// E6: over 1,048,576 combinations of a run of each thread.
    TooManyCombinations,
}

impl EvalRefusal {
    /// The number of the printed refusal, from 1 to 6.
    pub fn number(self) -> u8
        ensures { result ≡ number self }
    {
        match self {
            EvalRefusal::TooManyEvents => 1,
            EvalRefusal::TooManyValues => 2,
            EvalRefusal::TooManyRuns => 3,
            EvalRefusal::TooManyCandidates => 4,
            EvalRefusal::AddressFault => 5,
            EvalRefusal::TooManyCombinations => 6,
        }
    }
}

/// Why no domain was made.
#[derive(Debug, Drop, Error)]
pub enum DomainFault {
    /// The test is refused.
    #[error("refused")]
    Refused(EvalRefusal),
    /// Memory ran out.
    #[error("out of memory")]
    OutOfMemory(#[from(alloc)] AllocError),
}
