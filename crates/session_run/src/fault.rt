//! What a session answers to a fault of its desk.

ghost use Rattle.std.specs.Prelude.{◌≡◌};
ghost use Rattle.session_run.specs.Faults.{fault_for, IsOwnFault};

use bench_texts::EditFault;
use command_answers::SessionFault;
use desk::DeskFault;

/// A desk that refuses what the session's own texts accept, or that has no number left, is shared
/// with someone else.
pub(crate) fn fault_of(fault: &DeskFault<EditFault>) -> SessionFault
    ensures is { result ≡ fault_for fault.now }
    ensures own { IsOwnFault result }
{
    match fault {
        DeskFault::Edit(_) => SessionFault::Shared,
        DeskFault::Claim(_) => SessionFault::Shared,
        DeskFault::OutOfMemory => SessionFault::Memory,
        DeskFault::Closed => SessionFault::Memory,
        DeskFault::NoSeat => SessionFault::Memory,
    }
}
