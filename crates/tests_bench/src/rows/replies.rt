//! What is answered, as words.

use crate::played::{Refusal, Taken};
use bench_texts::EditFault;
use bench_workers::Tally;
use board::Board;
use cat_syntax::CatFault;
use cells::events::Reply;
use desk::{Accepted, DeskFault, Posted};
use litmus_ppc::LitmusFault;
use memo_core::claims::{ClaimFault, Finish};
use memo_core::keys::{Kind, Node};
use outcome_texts::{Shown, outcome_log};
use std::alloc::{AllocError, Global};
use text_values::{put_bytes, put_decimal};
use value_store::StoreFault;

fn put_numbered(answer: &mut Vec<u8>, word: &[u8], number: u64) -> Result<(), AllocError> {
    put_bytes(answer, word)?;
    put_decimal(answer, number)
}

fn put_refusal(answer: &mut Vec<u8>, fault: &EditFault) -> Result<(), AllocError> {
    match fault {
        EditFault::Test(LitmusFault::Refused { rule, offset: _ }) => {
            put_numbered(answer, b"refused L", u64::from(rule.number()))
        }
        EditFault::Model(CatFault::Refused { rule, offset: _ }) => {
            put_numbered(answer, b"refused C", u64::from(rule.number()))
        }
        _ => match fault.number() {
            Some(number) => put_numbered(answer, b"refused X", u64::from(number)),
            None => put_bytes(answer, b"out of memory"),
        },
    }
}

/// The number of an edit, or why it is refused.
pub fn put_edited(answer: &mut Vec<u8>, edited: &Result<u64, EditFault>) -> Result<(), AllocError> {
    match edited {
        Ok(number) => put_numbered(answer, b"edit ", *number),
        Err(fault) => put_refusal(answer, fault),
    }
}

/// The number of a claim, if there is work.
pub fn put_claimed(
    answer: &mut Vec<u8>,
    claimed: &Result<Option<u64>, ClaimFault>,
) -> Result<(), AllocError> {
    match claimed {
        Ok(Some(number)) => put_numbered(answer, b"claim ", *number),
        Ok(None) => put_bytes(answer, b"no work"),
        Err(ClaimFault::Spent) => put_bytes(answer, b"refused B1"),
        Err(ClaimFault::OutOfMemory) => put_bytes(answer, b"out of memory"),
    }
}

/// The node of a job: its kind, and the number of its item.
pub fn put_node(answer: &mut Vec<u8>, node: Node) -> Result<(), AllocError> {
    match node.kind {
        Kind::Space => put_bytes(answer, b"space")?,
        Kind::Group => put_numbered(answer, b"group ", node.of)?,
        Kind::Check => put_numbered(answer, b"check ", node.of)?,
        Kind::Verdict => put_bytes(answer, b"verdict")?,
    }
    put_bytes(answer, b": ")
}

/// What became of a return: the outputs that are new or changed go by their numbers.
pub fn put_finish(answer: &mut Vec<u8>, finish: &Finish) -> Result<(), AllocError> {
    match finish {
        Finish::Unknown => put_bytes(answer, b"unknown"),
        Finish::Stale(None) => put_bytes(answer, b"stale, of no use"),
        Finish::Stale(Some(stamp)) => put_numbered(answer, b"stale ", *stamp),
        Finish::Same => put_bytes(answer, b"same"),
        Finish::Stored(told) => {
            put_bytes(answer, b"stored")?;
            for name in &told.names {
                put_bytes(answer, b" ")?;
                put_decimal(answer, *name)?;
            }
            Ok(())
        }
    }
}

/// Why a job was not run.
pub fn put_run_fault(answer: &mut Vec<u8>, fault: &StoreFault) -> Result<(), AllocError> {
    match fault {
        StoreFault::StoreFull => put_bytes(answer, b"store full"),
        StoreFault::OutOfMemory => put_bytes(answer, b"out of memory"),
    }
}

/// Whether a claim was out.
pub fn put_lost(answer: &mut Vec<u8>, lost: bool) -> Result<(), AllocError> {
    put_bytes(answer, if lost { b"lost" } else { b"not out" })
}

/// A reply of a list of events.
pub fn put_reply(answer: &mut Vec<u8>, reply: &Reply<EditFault>) -> Result<(), AllocError> {
    match reply {
        Reply::Edited(edited) => put_edited(answer, edited),
        Reply::Claimed(claimed) => put_claimed(answer, claimed),
        Reply::Returned(Ok(finish)) => put_finish(answer, finish),
        Reply::Returned(Err(fault)) => put_run_fault(answer, fault),
        Reply::Lost(lost) => put_lost(answer, *lost),
        Reply::Renewed => put_bytes(answer, b"renewed"),
    }
}

/// The line of a log that tells the outcome.
fn put_outcome(answer: &mut Vec<u8>, log: Vec<u8>) -> Result<(), AllocError> {
    let text = match String::from_utf8(log) {
        Ok(text) => text,
        Err(_) => return Ok(()),
    };
    for line in text.lines() {
        if line.starts_with("Observation ") || line.starts_with("Refused ") {
            put_bytes(answer, line.as_bytes())?;
        }
    }
    Ok(())
}

/// What is known of a cell of a test.
pub fn put_cell(
    alloc: Global,
    answer: &mut Vec<u8>,
    test: &str,
    shown: Shown<'_>,
) -> Result<(), AllocError> {
    match shown {
        Shown::NoCell => put_bytes(answer, b"no cell"),
        Shown::Open => put_bytes(answer, b"open"),
        Shown::Settled(outcome) => put_outcome(
            answer,
            outcome_log(alloc, test.as_bytes(), outcome)?,
        ),
    }
}

/// How many edits a board shows, and what it shows of a cell.
pub fn put_board(
    alloc: Global,
    answer: &mut Vec<u8>,
    board: &Board,
    test: &str,
    model: &str,
) -> Result<(), AllocError> {
    put_numbered(answer, b"edits ", board.edit_count())?;
    put_bytes(answer, b", ")?;
    put_cell(
        alloc,
        answer,
        test,
        board.show(test.as_bytes(), model.as_bytes()),
    )
}

/// Why a desk refuses a call.
pub fn put_desk_fault(
    answer: &mut Vec<u8>,
    fault: &DeskFault<EditFault>,
) -> Result<(), AllocError> {
    match fault {
        DeskFault::Edit(fault) => put_refusal(answer, fault),
        DeskFault::Claim(_) => put_bytes(answer, b"refused B1"),
        DeskFault::OutOfMemory => put_bytes(answer, b"out of memory"),
        DeskFault::Closed => put_bytes(answer, b"refused K1"),
        DeskFault::NoSeat => put_bytes(answer, b"refused K2"),
    }
}

/// The number of an edit that a desk accepts, and whether it is published.
pub fn put_accepted(answer: &mut Vec<u8>, accepted: Accepted) -> Result<(), AllocError> {
    match accepted {
        Accepted::Now(number) => put_numbered(answer, b"now ", number),
        Accepted::Later(number) => put_numbered(answer, b"later ", number),
    }
}

/// What became of a return to a desk: what settles by it is published, if nothing else is said.
pub fn put_taken(answer: &mut Vec<u8>, taken: &Result<Taken, Refusal>) -> Result<(), AllocError> {
    match taken {
        Ok((finish, posted)) => {
            put_finish(answer, finish)?;
            match posted {
                Posted::Now => Ok(()),
                Posted::Later => put_bytes(answer, b", published later"),
            }
        }
        Err(fault) => put_desk_fault(answer, fault),
    }
}

/// Says what became of the jobs of a worker.
pub fn put_tally(answer: &mut Vec<u8>, tally: &Tally) -> Result<(), AllocError> {
    put_numbered(answer, b"stored ", tally.stored)?;
    put_numbered(answer, b", same ", tally.same)?;
    put_numbered(answer, b", stale ", tally.stale)?;
    put_numbered(answer, b", unknown ", tally.unknown)?;
    put_numbered(answer, b", refused ", tally.refused)
}

/// Says how many jobs were stored, how many made what was there, and how many came to something
/// else.
pub fn put_count(answer: &mut Vec<u8>, tally: &Tally) -> Result<(), AllocError> {
    let late = tally.stale.saturating_add(tally.unknown);
    put_numbered(answer, b"stored ", tally.stored)?;
    put_numbered(answer, b", same ", tally.same)?;
    put_numbered(answer, b", other ", late.saturating_add(tally.refused))
}

/// An answer with a line feed behind it. Of a quiet question it tells that it was asked.
pub fn told(alloc: Global, answer: Vec<u8>, is_quiet: bool) -> Result<String, AllocError> {
    let mut line = answer;
    if is_quiet {
        line = Vec::from_slice(alloc, b"done")?;
    }
    put_bytes(&mut line, b"\n")?;
    match String::from_utf8(line) {
        Ok(text) => Ok(text),
        Err(_) => String::from_str(alloc, "no text\n"),
    }
}
