//! The exit statuses of the program.

ghost use Rattle.std.specs.Prelude.{◌≡◌};
ghost use Rattle.command_line.specs.Statuses.{status_of};

use crate::fault::SessionFault;

/// How a run of the program ended.
#[derive(Clone, Copy, Debug, PartialEq, Eq)]
pub enum RunEnd {
    /// What was asked for is done, and whether a text was refused.
    Answered(bool),
    /// The words have no form, or ask for help.
    Usage,
    /// A fault of reading, writing or memory.
    Fault(SessionFault),
}

/// The exit status: 0 done, 1 a text was refused, 2 usage or help, 3 a fault of reading, writing or
/// memory.
pub fn exit_status(end: RunEnd) -> u8
    ensures { result ≡ status_of end }
{
    match end {
        RunEnd::Answered(false) => 0,
        RunEnd::Answered(true) => 1,
        RunEnd::Usage => 2,
        RunEnd::Fault(_) => 3,
    }
}
