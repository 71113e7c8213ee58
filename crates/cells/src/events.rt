//! Lists of events, and the replies to them.

use crate::job::RunFault;
use memo_core::claims::{ClaimFault, Finish};

/// What a list asks of a bench, where its texts have edits of this type.
#[derive(Drop)]
pub enum Event<E> {
    /// Makes an edit.
    Edit(E),
    /// Gives out a job, which the list keeps.
    Claim,
    /// Runs the job of that claim, if this list was given it, and returns what it makes: again as
    /// often as it stands there.
    Return(u64),
    /// Closes the claim of that number.
    Lose(u64),
    /// Forgets all that was computed, and closes every claim.
    Renew,
}

/// What is answered to an event, where edits are refused by faults of this type.
#[derive(Drop)]
pub enum Reply<F> {
    /// The number of the edit.
    Edited(Result<u64, F>),
    /// The number of the claim, if there is work.
    Claimed(Result<Option<u64>, ClaimFault>),
    /// What becomes of the return: `Unknown` for a claim that this list was not given.
    Returned(Result<Finish, RunFault>),
    /// Whether the claim was out.
    Lost(bool),
    /// All that was computed is forgotten.
    Renewed,
}
