//! What is answered to a line that is asked of a bench.

use crate::numbered::{NumberedBench, Offered};
use crate::rows::question::{Question, edit_of, events_of, question_of};
use crate::rows::replies::{
    put_cell, put_claimed, put_count, put_edited, put_finish, put_lost, put_node, put_reply,
    put_run_fault, told,
};
use bench_texts::{Edit, EditFault};
use bench_workers::Tally;
use cells::events::Reply;
use cells::shown::Shown;
use memo_core::claims::{Finish, StoredOutputs};
use outcome_texts::{Shown as Cell, counts_text};
use std::alloc::{AllocError, Global};
use std::sync::Wait;
use tests_cases::{edits, text_of};
use text_values::{put_bytes, put_decimal};
use value_store::StoreFault;
use verdict::{Outcome, OutcomeResult};

/// What a line asks of a bench.
#[derive(Clone, Copy)]
enum Asked {
    List,
    End,
    Settle,
    Jobs,
    Show,
    Counts,
    States,
    Claim,
    Return,
    Lose,
    Renew,
    Many,
    Edit,
}

/// What the first word of a line asks for: an edit, if it is no other word.
fn asked_of(verb: &str) -> Asked {
    match verb {
        "list" => Asked::List,
        "end" => Asked::End,
        "settle" => Asked::Settle,
        "jobs" => Asked::Jobs,
        "show" => Asked::Show,
        "counts" => Asked::Counts,
        "states" => Asked::States,
        "claim" => Asked::Claim,
        "return" => Asked::Return,
        "lose" => Asked::Lose,
        "renew" => Asked::Renew,
        "tests" => Asked::Many,
        "models" => Asked::Many,
        _ => Asked::Edit,
    }
}

/// One of many small edits.
fn small_edit(
    alloc: Global,
    question: &Question<'_>,
    number: u64,
    text: &[u8],
) -> Result<Edit, AllocError> {
    match question.verb {
        "tests" => edits::small_test(alloc, number),
        _ => edits::small_model(alloc, number, text),
    }
}

/// What becomes of a return: none for a job that is not kept.
type Returned = Option<Result<Offered, StoreFault>>;

/// Appends the names of the outputs of a node that are new or changed.
fn put_stored<B: NumberedBench>(
    answer: &mut Vec<u8>,
    bench: &B,
    told: &StoredOutputs,
) -> Result<(), AllocError> {
    put_bytes(answer, b"stored")?;
    for name in &told.names {
        put_bytes(answer, b" ")?;
        if let Some(name) = bench.output_name(told.node, *name) {
            put_bytes(answer, name)?;
        }
    }
    Ok(())
}

/// Appends replies, each with a line feed behind it.
fn put_replies<B: NumberedBench>(
    answer: &mut Vec<u8>,
    bench: &B,
    replies: &[Reply<EditFault>],
) -> Result<(), AllocError> {
    for reply in replies {
        match reply {
            Reply::Returned(Ok(Finish::Stored(told))) => put_stored(answer, bench, told)?,
            reply => put_reply(answer, reply)?,
        }
        put_bytes(answer, b"\n")?;
    }
    Ok(())
}

/// Appends the node that a return was for, and what became of it.
fn put_offered<B: NumberedBench>(
    answer: &mut Vec<u8>,
    bench: &B,
    offered: &Offered,
) -> Result<(), AllocError> {
    put_node(answer, offered.node)?;
    match &offered.finish {
        Finish::Stored(told) => put_stored(answer, bench, told),
        finish => put_finish(answer, finish),
    }
}

/// Appends what became of a return.
fn put_return<B: NumberedBench>(
    answer: &mut Vec<u8>,
    bench: &B,
    returned: Returned,
) -> Result<(), AllocError> {
    match returned {
        Some(Ok(offered)) => put_offered(answer, bench, &offered),
        Some(Err(fault)) => put_run_fault(answer, &fault),
        None => put_finish(answer, &Finish::Unknown),
    }
}

/// Counts what became of a return, and appends it, if each is told.
fn note_return<B: NumberedBench>(
    answer: &mut Vec<u8>,
    bench: &B,
    tally: &mut Tally,
    returned: Returned,
    each: bool,
) -> Result<(), AllocError> {
    let Some(Ok(offered)) = returned else {
        tally.note_refusal();
        return Ok(());
    };
    tally.note(&offered.finish);
    if each {
        put_offered(answer, bench, &offered)?;
        put_bytes(answer, b"\n")?;
    }
    Ok(())
}

/// Appends the counts of a cell.
fn put_counts(alloc: Global, answer: &mut Vec<u8>, cell: Cell<'_>) -> Result<(), AllocError> {
    match cell {
        Cell::Settled(outcome) => {
            put_bytes(answer, &counts_text(alloc, Cell::Settled(outcome))?)
        }
        Cell::Open => put_bytes(answer, b"open"),
        Cell::NoCell => put_bytes(answer, b"no cell"),
    }
}

/// Appends the number of states of a cell.
fn put_states(answer: &mut Vec<u8>, cell: Cell<'_>) -> Result<(), AllocError> {
    match cell {
        Cell::Settled(outcome) => match &outcome.result {
            OutcomeResult::Evaluated(found) => put_decimal(answer, found.states.len() as u64),
            OutcomeResult::Refused(_) => put_bytes(answer, b"refused"),
        },
        Cell::Open => put_bytes(answer, b"open"),
        Cell::NoCell => put_bytes(answer, b"no cell"),
    }
}

/// What a bench shows of a cell, as a board says it.
fn cell_of(shown: Shown<'_, Outcome>) -> Cell<'_> {
    match shown {
        Shown::NoCell => Cell::NoCell,
        Shown::Open => Cell::Open,
        Shown::Settled(outcome) => Cell::Settled(outcome),
    }
}

/// A bench, and the list of questions that is being written, if one is.
#[derive(Drop)]
pub struct BenchPlay<'a, B: NumberedBench> {
    bench: B,
    list: Option<Vec<Question<'a>>>,
}

impl<'a, B: NumberedBench> BenchPlay<'a, B> {
    /// No list is being written.
    pub fn new(bench: B) -> Self {
        BenchPlay { bench, list: None }
    }

    /// Claims, runs and returns until there is no work, with each answer.
    fn settle<W: Wait>(
        &mut self,
        rt: &W,
        alloc: Global,
        answer: &mut Vec<u8>,
        each: bool,
    ) -> Result<(), AllocError> {
        let mut tally = Tally::new();
        for _ in 0..100_000_u32 {
            let Ok(Some(claim)) = self.bench.claim(alloc)? else {
                break;
            };
            let returned = self.bench.offer(rt, alloc, claim)?;
            note_return(answer, &self.bench, &mut tally, returned, each)?;
        }
        put_count(answer, &tally)
    }

    fn cell(&self, question: &Question<'_>) -> Cell<'_> {
        cell_of(
            self.bench
                .shown(question.name.as_bytes(), question.last.as_bytes()),
        )
    }

    /// Plays the events that a list of questions asks for, and answers with the replies. False if
    /// it is refused memory.
    fn play_events<W: Wait>(
        &mut self,
        rt: &W,
        alloc: Global,
        answer: &mut Vec<u8>,
        list: &[Question<'_>],
    ) -> Result<bool, AllocError> {
        let events = events_of(alloc, list)?;
        match self.bench.run_events(rt, alloc, &events) {
            Ok(replies) => {
                put_replies(answer, &self.bench, &replies)?;
                Ok(true)
            }
            Err(_) => Ok(false),
        }
    }

    /// Plays the list that was written. It is kept if it is refused memory.
    fn play_list<W: Wait>(
        &mut self,
        rt: &W,
        alloc: Global,
        answer: &mut Vec<u8>,
    ) -> Result<(), AllocError> {
        let Some(list) = self.list.take() else {
            return Ok(());
        };
        if self.play_events(rt, alloc, answer, &list)? {
            return Ok(());
        }
        self.list = Some(list);
        put_bytes(answer, b"out of memory")
    }

    /// Makes the edit of a question.
    fn edit(
        &mut self,
        alloc: Global,
        answer: &mut Vec<u8>,
        question: &Question<'_>,
    ) -> Result<(), AllocError> {
        let edit = edit_of(alloc, question)?;
        put_edited(answer, &self.bench.edit(alloc, edit))
    }

    /// Claims a job.
    fn claim(&mut self, alloc: Global, answer: &mut Vec<u8>) -> Result<(), AllocError> {
        put_claimed(answer, &self.bench.claim(alloc)?)
    }

    /// Returns what the job of a claim made.
    fn offer<W: Wait>(
        &mut self,
        rt: &W,
        alloc: Global,
        answer: &mut Vec<u8>,
        claim: u64,
    ) -> Result<(), AllocError> {
        let returned = self.bench.offer(rt, alloc, claim)?;
        put_return(answer, &self.bench, returned)
    }

    /// Makes one of many small edits.
    fn put_small(
        &mut self,
        alloc: Global,
        question: &Question<'_>,
        number: u64,
        text: &[u8],
    ) -> Result<Result<u64, EditFault>, AllocError> {
        let edit = small_edit(alloc, question, number, text)?;
        Ok(self.bench.edit(alloc, edit))
    }

    /// Makes so many small edits, and answers as the last is answered.
    fn put_many(
        &mut self,
        alloc: Global,
        answer: &mut Vec<u8>,
        question: &Question<'_>,
    ) -> Result<(), AllocError> {
        let text = text_of(alloc, question.written)?;
        let mut last = Ok(0);
        for number in 0..question.number {
            last = self.put_small(alloc, question, number, &text)?;
        }
        put_edited(answer, &last)
    }

    /// What is answered to a question.
    fn answer<W: Wait>(
        &mut self,
        rt: &W,
        alloc: Global,
        answer: &mut Vec<u8>,
        question: &Question<'_>,
    ) -> Result<(), AllocError> {
        match asked_of(question.verb) {
            Asked::List => {
                self.list = Some(Vec::new(alloc));
                Ok(())
            }
            Asked::End => self.play_list(rt, alloc, answer),
            Asked::Settle => self.settle(rt, alloc, answer, false),
            Asked::Jobs => self.settle(rt, alloc, answer, true),
            Asked::Show => put_cell(alloc, answer, question.name, self.cell(question)),
            Asked::Counts => put_counts(alloc, answer, self.cell(question)),
            Asked::States => put_states(answer, self.cell(question)),
            Asked::Claim => self.claim(alloc, answer),
            Asked::Return => self.offer(rt, alloc, answer, question.number),
            Asked::Lose => put_lost(answer, self.bench.lose(question.number)),
            Asked::Renew => {
                self.bench.renew();
                put_bytes(answer, b"renewed")
            }
            Asked::Many => self.put_many(alloc, answer, question),
            Asked::Edit => self.edit(alloc, answer, question),
        }
    }

    /// What is answered to a question. Where memory was refused, this is told, and the question is
    /// asked once more.
    fn answer_again<W: Wait>(
        &mut self,
        rt: &W,
        alloc: Global,
        answer: &mut Vec<u8>,
        question: &Question<'_>,
    ) -> Result<(), AllocError> {
        self.answer(rt, alloc, answer, question)?;
        if answer.as_slice() != b"out of memory".as_slice() {
            return Ok(());
        }
        put_bytes(answer, b"\n")?;
        self.answer(rt, alloc, answer, question)
    }

    /// What is answered to a question, with a line feed behind it.
    fn answer_of<W: Wait>(
        &mut self,
        rt: &W,
        alloc: Global,
        question: &Question<'_>,
    ) -> Result<String, AllocError> {
        let mut answer = Vec::new(alloc);
        self.answer_again(rt, alloc, &mut answer, question)?;
        told(alloc, answer, question.is_quiet)
    }

    /// Adds a question to the list that is being written. False if none is, or the question ends
    /// it.
    fn is_written(&mut self, question: &Question<'a>) -> Result<bool, AllocError> {
        let Some(list) = &mut self.list else {
            return Ok(false);
        };
        if question.verb == "end" {
            return Ok(false);
        }
        list.push(*question)?;
        Ok(true)
    }

    /// What is answered to a line, with a line feed behind it: nothing where the line is one of a
    /// list of events.
    pub fn answer_line<W: Wait>(
        &mut self,
        rt: &W,
        alloc: Global,
        line: &'a str,
    ) -> Result<String, AllocError> {
        let question = question_of(line);
        if self.is_written(&question)? {
            return String::from_str(alloc, "");
        }
        self.answer_of(rt, alloc, &question)
    }
}
