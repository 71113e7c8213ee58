//! Why the desk refuses a call.

ghost use Rattle.std.specs.Prelude.{◌≡◌};
ghost use Rattle.desk.specs.Numbers.{desk_fault_number};

use memo_core::claims::ClaimFault;
use thiserror::Error;

/// Why a call on the desk is refused, where edits are refused by faults of this type.
#[derive(Debug, Drop, Error)]
pub enum DeskFault<F> {
    /// The edit is refused by a rule.
    #[error("the edit is refused")]
    Edit(F),
    /// No number is left for the claim.
    #[error("{0}")]
    Claim(ClaimFault),
    /// A growth was refused.
    #[error("out of memory")]
    OutOfMemory,
    /// K1: the desk is closed.
    #[error("the desk is closed")]
    Closed,
    /// K2: no viewer is left to give, or none could be made, or this one has seen more than the
    /// desk has.
    #[error("no viewer is left, or this one has seen more than the desk has")]
    NoSeat,
}

impl<F> DeskFault<F> {
    /// The number of a refusal by the desk: 1 for K1 and 2 for K2. A refusal by the bench has a
    /// number of its own, and want of memory has none.
    pub fn number(&self) -> Option<u8>
        ensures { result ≡ desk_fault_number self.now }
    {
        match self {
            DeskFault::Closed => Some(1),
            DeskFault::NoSeat => Some(2),
            DeskFault::Edit(_) => None,
            DeskFault::Claim(_) => None,
            DeskFault::OutOfMemory => None,
        }
    }
}
