//! Why a test has no list of candidates.

ghost use Rattle.std.specs.Prelude.{◌≡◌};
ghost use Rattle.candidate_spaces.specs.Faults.{space_fault_of};

use ppc_semantics::{DomainFault, EvalRefusal};
use std::alloc::AllocError;
use thiserror::Error;

/// Why no list of candidates was made.
#[derive(Debug, Drop, Error)]
pub enum SpaceFault {
    /// The test is refused.
    #[error("refused")]
    Refused(EvalRefusal),
    /// Memory ran out.
    #[error("out of memory")]
    OutOfMemory(#[from(alloc)] AllocError),
}

impl SpaceFault {
    /// The fault of a test that has no domain for this fault.
    pub fn of_domain(fault: DomainFault) -> SpaceFault
        ensures { result ≡ space_fault_of fault }
    {
        match fault {
            DomainFault::Refused(refusal) => SpaceFault::Refused(refusal),
            DomainFault::OutOfMemory(error) => SpaceFault::OutOfMemory(error),
        }
    }
}
