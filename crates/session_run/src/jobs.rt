//! The jobs that a session without workers runs itself.

ghost use Rattle.std.specs.Prelude.{IfErr};
ghost use Rattle.session_run.specs.Faults.{IsOwnFault};

use crate::fault::fault_of;
use bench_instance::{RunningDesk, StampedTexts};
use cells::job::Job;
use command_answers::SessionFault;
use desk::Naming;
use std::alloc::Global;
use std::sync::Wait;
use value_store::StoreName;

// So many jobs are run before the board is looked at again.
const MOST_JOBS: u32 = 16;

fn run_job<J: Naming + StoreName, R: Wait + Drop, W: Wait>(
    rt: &W,
    alloc: Global,
    desk: &RunningDesk<J, R>,
    job: Job<J, StampedTexts>,
) -> Result<(), SessionFault>
    ensures { IfErr result IsOwnFault }
{
    let claim = job.claim_number();
    match job.run(rt, alloc) {
        Ok(done) => match desk.finish(rt, done) {
            Ok(_taken) => Ok(()),
            Err(fault) => Err(fault_of(&fault)),
        },
        Err(_refused) => {
            let _lost = desk.lose(rt, claim).is_ok();
            Err(SessionFault::Memory)
        }
    }
}

// Claims a job, runs it and returns it. False where there is no job.
fn run_one<J: Naming + StoreName, R: Wait + Drop, W: Wait>(
    rt: &W,
    alloc: Global,
    desk: &RunningDesk<J, R>,
) -> Result<bool, SessionFault>
    ensures { IfErr result IsOwnFault }
{
    match desk.claim(rt) {
        Ok(Some(job)) => match run_job(rt, alloc, desk, job) {
            Ok(()) => Ok(true),
            Err(fault) => Err(fault),
        },
        Ok(None) => Ok(false),
        Err(fault) => Err(fault_of(&fault)),
    }
}

/// Runs some jobs, as long as there are any. False where there is none. Errors: those of the desk.
pub(crate) fn run_some<J: Naming + StoreName, R: Wait + Drop, W: Wait>(
    rt: &W,
    alloc: Global,
    desk: &RunningDesk<J, R>,
) -> Result<bool, SessionFault>
    ensures { IfErr result IsOwnFault }
{
    for done in 0..MOST_JOBS {
        match run_one(rt, alloc, desk) {
            Ok(true) => {}
            Ok(false) => return Ok(done > 0),
            Err(fault) => return Err(fault),
        }
    }
    Ok(true)
}
