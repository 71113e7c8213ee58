//! What is answered to a line that is asked of a desk.

use crate::claimed_desk::{ClaimedDesk, Returned};
use crate::played::{Call, Looker, PlayedDesk, Refusal, Taken};
use crate::rows::question::{Question, edit_of, question_of};
use crate::rows::replies::{
    put_accepted, put_board, put_claimed, put_count, put_desk_fault, put_finish, put_lost,
    put_run_fault, put_taken, put_tally, told,
};
use bench_workers::Tally;
use board::Board;
use memo_core::claims::Finish;
use std::alloc::{AllocError, Global};
use std::io;
use std::sync::Wait;
use std::thread::Threads;
use text_values::{put_bytes, put_decimal};

/// What a line asks of a desk.
#[derive(Clone, Copy)]
enum Asked {
    Viewer,
    Viewers,
    Settle,
    Show,
    Claim,
    Jobs,
    Work,
    Return,
    Twice,
    Lose,
    Renew,
    Close,
    Edit,
}

/// What the first word of a line asks for: an edit, if it is no other word.
fn asked_of(verb: &str) -> Asked {
    match verb {
        "viewer" => Asked::Viewer,
        "viewers" => Asked::Viewers,
        "settle" => Asked::Settle,
        "show" => Asked::Show,
        "claim" => Asked::Claim,
        "jobs" => Asked::Jobs,
        "work" => Asked::Work,
        "return" => Asked::Return,
        "twice" => Asked::Twice,
        "lose" => Asked::Lose,
        "renew" => Asked::Renew,
        "close" => Asked::Close,
        _ => Asked::Edit,
    }
}

/// Whether a return is answered as that of a claim that was not out.
fn is_unknown(taken: &Result<Taken, Refusal>) -> bool {
    match taken {
        Ok((finish, _posted)) => matches!(finish, Finish::Unknown),
        Err(_) => false,
    }
}

/// Appends what became of two returns at once. The return that is taken is told first.
fn put_both(
    answer: &mut Vec<u8>,
    first: &Result<Taken, Refusal>,
    second: &Result<Taken, Refusal>,
) -> Result<(), AllocError> {
    let is_turned = is_unknown(first);
    put_taken(answer, if is_turned { second } else { first })?;
    put_bytes(answer, b" and ")?;
    put_taken(answer, if is_turned { first } else { second })
}

/// Appends what became of a return.
fn put_returned(answer: &mut Vec<u8>, returned: &Returned) -> Result<(), AllocError> {
    match returned {
        Returned::Once(taken) => put_taken(answer, taken),
        Returned::Twice(first, second) => put_both(answer, first, second),
        Returned::NotRun(fault) => put_run_fault(answer, fault),
        Returned::NotKept => put_finish(answer, &Finish::Unknown),
    }
}

/// Says that a call was made, or why it is refused.
fn put_made(
    answer: &mut Vec<u8>,
    word: &[u8],
    called: Result<bool, Refusal>,
) -> Result<(), AllocError> {
    match called {
        Ok(_) => put_bytes(answer, word),
        Err(fault) => put_desk_fault(answer, &fault),
    }
}

/// Says whether a claim was out, or why the call is refused.
fn put_closed(answer: &mut Vec<u8>, lost: Result<bool, Refusal>) -> Result<(), AllocError> {
    match lost {
        Ok(lost) => put_lost(answer, lost),
        Err(fault) => put_desk_fault(answer, &fault),
    }
}

/// Tells what a board shows of a cell.
#[derive(Drop)]
struct CellTeller<'a> {
    test: &'a str,
    model: &'a str,
    answer: Vec<u8>,
    told: Result<(), AllocError>,
}

impl<'a> Looker for CellTeller<'a> {
    fn look(&mut self, alloc: Global, board: &Board) {
        self.told = put_board(alloc, &mut self.answer, board, self.test, self.model);
    }
}

/// Takes so many viewers, and tells the number of the last.
fn take_viewers<D: PlayedDesk, W: Wait>(
    rt: &W,
    desk: &mut ClaimedDesk<'_, D>,
    answer: &mut Vec<u8>,
    count: u64,
) -> Result<(), AllocError> {
    for _ in 0..count {
        if let Err(fault) = desk.take_viewer(rt)? {
            return put_desk_fault(answer, &fault);
        }
    }
    put_bytes(answer, b"viewers ")?;
    put_decimal(answer, desk.viewer_count() as u64)
}

/// Makes the edit of a question.
fn edit<D: PlayedDesk, W: Wait>(
    rt: &W,
    alloc: Global,
    desk: &mut ClaimedDesk<'_, D>,
    answer: &mut Vec<u8>,
    question: &Question<'_>,
) -> Result<(), AllocError> {
    match desk.edit(rt, question.viewer, edit_of(alloc, question)?) {
        Some(Ok(accepted)) => put_accepted(answer, accepted),
        Some(Err(fault)) => put_desk_fault(answer, &fault),
        None => put_bytes(answer, b"no viewer"),
    }
}

/// Waits until each cell is settled.
fn settle<D: PlayedDesk, W: Wait>(
    rt: &W,
    desk: &mut ClaimedDesk<'_, D>,
    answer: &mut Vec<u8>,
    viewer: usize,
) -> Result<(), AllocError> {
    match desk.settle(rt, viewer) {
        Some(Ok(())) => put_bytes(answer, b"settled"),
        Some(Err(fault)) => put_desk_fault(answer, &fault),
        None => put_bytes(answer, b"no viewer"),
    }
}

/// Tells what a viewer sees of a cell.
fn show<D: PlayedDesk>(
    alloc: Global,
    desk: &mut ClaimedDesk<'_, D>,
    answer: &mut Vec<u8>,
    question: &Question<'_>,
) -> Result<(), AllocError> {
    let mut teller = CellTeller {
        test: question.name,
        model: question.last,
        answer: Vec::new(alloc),
        told: Ok(()),
    };
    match desk.look(alloc, question.viewer, &mut teller) {
        Some(true) => {
            teller.told?;
            put_bytes(answer, &teller.answer)
        }
        Some(false) => put_bytes(answer, b"no view"),
        None => put_bytes(answer, b"no viewer"),
    }
}

/// Claims a job.
fn claim<D: PlayedDesk, W: Wait>(
    rt: &W,
    desk: &mut ClaimedDesk<'_, D>,
    answer: &mut Vec<u8>,
) -> Result<(), AllocError> {
    match desk.claim(rt)? {
        Ok(claim) => put_claimed(answer, &Ok(claim)),
        Err(fault) => put_desk_fault(answer, &fault),
    }
}

/// Counts what became of a return.
fn note_return(tally: &mut Tally, returned: &Returned) {
    match returned {
        Returned::Once(Ok((finish, _posted))) => tally.note(finish),
        _ => tally.note_refusal(),
    }
}

/// Claims, runs and returns until there is no work.
fn play_jobs<D: PlayedDesk, W: Wait>(
    rt: &W,
    alloc: Global,
    desk: &mut ClaimedDesk<'_, D>,
) -> Result<Tally, AllocError> {
    let mut tally = Tally::new();
    for _ in 0..100_000_u32 {
        let Ok(Some(claim)) = desk.claim(rt)? else {
            break;
        };
        note_return(&mut tally, &desk.offer(rt, alloc, claim)?);
    }
    Ok(tally)
}

/// What is answered to a question.
fn put_answer<D: PlayedDesk, W: Wait + Threads + Sync>(
    rt: &W,
    alloc: Global,
    desk: &mut ClaimedDesk<'_, D>,
    answer: &mut Vec<u8>,
    question: &Question<'_>,
) -> Result<(), AllocError> {
    let claimed = question.number;
    match asked_of(question.verb) {
        Asked::Viewer => take_viewers(rt, desk, answer, 1),
        Asked::Viewers => take_viewers(rt, desk, answer, question.number),
        Asked::Settle => settle(rt, desk, answer, question.viewer),
        Asked::Show => show(alloc, desk, answer, question),
        Asked::Claim => claim(rt, desk, answer),
        Asked::Jobs => put_count(answer, &play_jobs(rt, alloc, desk)?),
        Asked::Work => put_tally(answer, &desk.work(rt, alloc)),
        Asked::Renew => put_made(answer, b"renewed", desk.call(rt, Call::Renew)),
        Asked::Close => put_made(answer, b"closed", desk.call(rt, Call::Close)),
        Asked::Return => put_returned(answer, &desk.offer_aside(rt, alloc, claimed, false)?),
        Asked::Twice => put_returned(answer, &desk.offer_aside(rt, alloc, claimed, true)?),
        Asked::Lose => put_closed(answer, desk.call_aside(rt, Call::Lose(claimed))),
        Asked::Edit => edit(rt, alloc, desk, answer, question),
    }
}

/// What is answered to a question, with a line feed behind it.
fn answer_of<D: PlayedDesk, W: Wait + Threads + Sync>(
    rt: &W,
    alloc: Global,
    desk: &mut ClaimedDesk<'_, D>,
    question: &Question<'_>,
) -> Result<String, AllocError> {
    let mut answer = Vec::new(alloc);
    put_answer(rt, alloc, desk, &mut answer, question)?;
    told(alloc, answer, question.is_quiet)
}

/// What is answered to a line.
fn answer_line<D: PlayedDesk, W: Wait + Threads + Sync>(
    rt: &W,
    alloc: Global,
    desk: &mut ClaimedDesk<'_, D>,
    line: &str,
) -> Result<String, AllocError> {
    answer_of(rt, alloc, desk, &question_of(line))
}

/// Plays the lines of one desk.
pub fn play_lines<R, D>(rt: &R, alloc: Global, desk: &D, lines: &[&str]) -> io::Result<()>
where
    R: Print + Wait + Threads + Sync,
    D: PlayedDesk,
{
    let mut claimed = ClaimedDesk::new(alloc, desk);
    for line in lines {
        println!(rt; "{line}")?;
        let answer = answer_line(rt, alloc, &mut claimed, line)?;
        rt.print(answer)?;
    }
    Ok(())
}
