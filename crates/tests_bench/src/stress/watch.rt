//! A viewer, in a thread of its own.

use crate::played::ViewedDesk;
use crate::stress::plan::{EDITS, Plan};
use crate::stress::sight::Sight;
use std::alloc::Global;
use std::rt::Clock;
use std::sync::Wait;
use std::sync::atomic::{AtomicU64, Ordering};
use std::thread;
use std::time::Duration;

/// So many microseconds a viewer rests between two boards.
const REST: u64 = 200;

/// What author and viewers share: the plan, the faults that were found, and whether the last edit
/// is settled.
#[derive(Drop)]
pub struct Shared {
    pub plan: Plan,
    faults: AtomicU64,
    ended: AtomicU64,
}

impl Shared {
    /// No fault was found, and the last edit is not settled.
    pub fn new(plan: Plan) -> Shared {
        Shared {
            plan,
            faults: AtomicU64::new(0),
            ended: AtomicU64::new(0),
        }
    }

    /// How many faults were found so far.
    pub fn faults(&self) -> u64 {
        self.faults.load(Ordering::SeqCst)
    }

    /// Adds faults that were found.
    pub fn add(&self, faults: u64) {
        let _before = self.faults.fetch_add(faults, Ordering::SeqCst);
    }

    /// The author has settled its last edit.
    pub fn end(&self) {
        self.ended.store(1, Ordering::SeqCst);
    }

    fn is_ended(&self) -> bool {
        self.ended.load(Ordering::SeqCst) > 0
    }
}

/// Looks at the board that was published last, and gives the viewer back. No board is a fault.
fn look<D: ViewedDesk>(alloc: Global, viewer: D::Viewer, sight: &mut Sight<'_>) -> D::Viewer {
    let (viewer, is_read) = D::look(alloc, viewer, sight);
    sight.note(!is_read);
    viewer
}

/// Looks at boards until the author has ended, and then once more: that board has all edits, and no
/// cell is open. No viewer is a fault. Every other viewer also asks the desk now and then whether
/// all is settled, which tells it what is published.
pub fn watch<D: ViewedDesk, W: Wait + Clock>(
    rt: &W,
    alloc: Global,
    desk: &D,
    asks: bool,
    shared: &Shared,
) {
    let Ok(mut viewer) = desk.give_viewer(rt) else {
        return shared.add(1);
    };
    let mut sight = Sight::new(alloc, &shared.plan);
    for turn in 0..u64::MAX {
        let is_last = shared.is_ended();
        if asks && turn % 16 == 0 {
            sight.note(desk.settle(rt, &mut viewer, false).is_err());
        }
        viewer = look::<D>(alloc, viewer, &mut sight);
        if is_last {
            break;
        }
        thread::sleep(rt, Duration::from_micros(REST));
    }
    sight.note(sight.edits() != EDITS as u64 || sight.open() > 0);
    shared.add(sight.faults());
}
