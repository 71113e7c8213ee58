//! A gate that holds the first claim until another has ended.

use crate::meeting::gate::{Counts, Held, Meeting};
use bench_workers::Gate;
use std::alloc::{AllocError, Global};
use std::sync::{Arc, Wait};

/// The first claim is held until one has ended.
const FIRST: Held = Held {
    first: 1,
    until_begun: 0,
    until_ended: 1,
};

/// A gate that its owner may ask behind a session.
#[derive(Drop)]
pub struct SharedMeeting {
    meeting: Arc<Meeting>,
}

impl SharedMeeting {
    /// No claim has begun.
    pub fn new(alloc: Global) -> Result<SharedMeeting, AllocError> {
        Ok(SharedMeeting {
            meeting: Arc::new(alloc, Meeting::new(FIRST))?,
        })
    }

    /// The counts once each claim that has begun has ended.
    pub fn last_counts<R: Wait>(&self, rt: &R) -> Counts {
        self.meeting.last_counts(rt)
    }
}

impl Clone for SharedMeeting {
    fn clone(&self) -> Result<SharedMeeting, AllocError> {
        Ok(SharedMeeting {
            meeting: Arc::try_clone(&self.meeting)?,
        })
    }
}

impl Gate for SharedMeeting {
    fn begin<R: Wait>(&self, rt: &R, claim: u64) {
        self.meeting.begin(rt, claim);
    }

    fn end<R: Wait>(&self, rt: &R, claim: u64) {
        self.meeting.end(rt, claim);
    }
}
