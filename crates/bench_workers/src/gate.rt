//! What is told of each job of a worker.

ghost use Rattle.std.specs.Prelude.{◌≡◌, false};

use std::sync::Wait;

/// Is told when a worker begins a job and when it ends it. It is called with no lock of the desk
/// held, and may wait.
pub trait Gate {
    /// The job of this claim was given out.
    fn begin<R: Wait>(&self, rt: &R, claim: u64);

    /// The job of this claim was returned or lost.
    fn end<R: Wait>(&self, rt: &R, claim: u64);

    /// Whether it is told of the end of a job before the worker takes the next one. Else the worker
    /// returns the job and takes the next one in one turn of the desk's lock, and the end is told
    /// after that.
    fn hears_ends(&self) -> bool {
        true
    }
}

/// Nothing is told.
#[derive(Clone, Copy, Debug)]
pub struct NoGate;

impl Gate for NoGate {
    fn begin<R: Wait>(&self, _rt: &R, _claim: u64) {}

    fn end<R: Wait>(&self, _rt: &R, _claim: u64) {}

    fn hears_ends(&self) -> bool
        ensures { result ≡ false }
    {
        false
    }
}
