//! Calls of a desk by threads of their own.

use crate::claimed_desk::Returned;
use crate::played::{Call, Refusal, SharedDesk};
use std::alloc::Global;
use std::sync::Wait;
use std::thread;
use std::thread::Threads;

/// Returns what a job made, or returns it twice at once.
pub fn offer<D: SharedDesk, W: Wait + Threads + Sync>(
    rt: &W,
    alloc: Global,
    desk: &D,
    done: &D::Done,
    twice: bool,
) -> Returned {
    let (first, second) = thread::join(
        rt,
        move || desk.offer(rt, alloc, done),
        move || if twice {
            Some(desk.offer(rt, alloc, done))
        } else {
            None
        },
    );
    match second {
        Some(second) => Returned::Twice(first, second),
        None => Returned::Once(first),
    }
}

/// Makes a call.
pub fn call<D: SharedDesk, W: Wait + Threads + Sync>(
    rt: &W,
    desk: &D,
    call: Call,
) -> Result<bool, Refusal> {
    thread::join(rt, move || desk.call(rt, call), || ()).0
}
