//! A list of events, one after another.

ghost use Rattle.std.specs.Prelude.{◌≡◌, ◌<◌, ◌≤◌, ◌+◌, IfOk, OnErr, length, vec_len, vec_capacity};
ghost use Rattle.memo_core.specs.Laws.{meaning};
ghost use Rattle.cells.specs.Events.{IsEventAnswered, IsSameEvent, AnswersEvents};
ghost use Rattle.cells.specs.Stages.{tasks_in};
ghost use Rattle.std.specs.List.{AllZip};

use crate::bench::Bench;
use crate::events::{Event, Reply};
use crate::stage::{Stage, offer_of};
use crate::texts::CellTexts;
use memo_core::claims::Finish;
use std::alloc::{AllocError, Global};
use std::sync::Wait;
use value_store::StoreName;

/// The same event once more.
fn copy_event<T: CellTexts>(
    alloc: Global,
    event: &Event<T::Edit>,
) -> Result<Event<T::Edit>, AllocError>
    ensures { IfOk result (λ copy. IsSameEvent T.same_edit copy event.now) }
{
    match event {
        Event::Edit(edit) => Ok(Event::Edit(T::copy_edit(alloc, edit)?)),
        Event::Claim => Ok(Event::Claim),
        Event::Return(claim) => Ok(Event::Return(*claim)),
        Event::Lose(claim) => Ok(Event::Lose(*claim)),
        Event::Renew => Ok(Event::Renew),
    }
}

/// The same events once more.
fn copy_events<T: CellTexts>(
    alloc: Global,
    events: &[Event<T::Edit>],
) -> Result<Vec<Event<T::Edit>>, AllocError>
    ensures { IfOk result (λ copies. AllZip (IsSameEvent T.same_edit) copies.items events.now) }
{
    let mut copies = Vec::with_capacity(alloc, events.len())?;
    for event in events {
        copies.push(copy_event::<T>(alloc, event)?)?;
    }
    Ok(copies)
}

impl<K: StoreName, T: CellTexts> Bench<K, T> {
    /// Gives out a job, which is kept with the others, for which there is room.
    fn claim_next(&mut self, alloc: Global, jobs: &mut Vec<Option<Stage<K, T>>>) -> Reply<T::Fault>
        requires { vec_len jobs.old < vec_capacity jobs.old }
        ensures answered { IsEventAnswered
            (meaning T.net T.is_valid T.since T.makes T.keeps T.edited T.last) T.refuses T.last
            self.old (tasks_in jobs.old.items) Event.Claim result self.new
            (tasks_in jobs.new.items) }
        ensures len { vec_len jobs.new ≤ vec_len jobs.old + 1 }
        ensures capacity { vec_capacity jobs.old ≤ vec_capacity jobs.new }
    {
        match self.claim(alloc) {
            Ok(Some(job)) => {
                let claim = job.claim_number();
                match jobs.push(Some(Stage::Waiting(job))) {
                    Ok(()) => {}
                    Err(_) => unreachable!(),
                }
                Reply::Claimed(Ok(Some(claim)))
            }
            Ok(None) => Reply::Claimed(Ok(None)),
            Err(fault) => Reply::Claimed(Err(fault)),
        }
    }

    /// Returns what the job of a claim makes.
    fn return_of<R: Wait>(
        &mut self,
        rt: &R,
        alloc: Global,
        claim: u64,
        jobs: &mut [Option<Stage<K, T>>],
    ) -> Reply<T::Fault>
        ensures answered { IsEventAnswered
            (meaning T.net T.is_valid T.since T.makes T.keeps T.edited T.last) T.refuses T.last
            self.old (tasks_in jobs.old) (Event.Return claim) result self.new (tasks_in jobs.new) }
    {
        match offer_of(rt, alloc, claim, jobs) {
            None => Reply::Returned(Ok(Finish::Unknown)),
            Some(Err(fault)) => Reply::Returned(Err(fault)),
            Some(Ok(done)) => Reply::Returned(Ok(self.finish(done))),
        }
    }

    /// One event. Where it is a claim, there is room for its job.
    fn answer<R: Wait>(
        &mut self,
        rt: &R,
        alloc: Global,
        jobs: &mut Vec<Option<Stage<K, T>>>,
        event: Event<T::Edit>,
    ) -> Reply<T::Fault>
        requires { vec_len jobs.old < vec_capacity jobs.old }
        ensures answered { IsEventAnswered
            (meaning T.net T.is_valid T.since T.makes T.keeps T.edited T.last) T.refuses T.last
            self.old (tasks_in jobs.old.items) event result self.new (tasks_in jobs.new.items) }
        ensures len { vec_len jobs.new ≤ vec_len jobs.old + 1 }
        ensures capacity { vec_capacity jobs.old ≤ vec_capacity jobs.new }
    {
        match event {
            Event::Edit(edit) => Reply::Edited(self.edit(alloc, edit)),
            Event::Claim => self.claim_next(alloc, jobs),
            Event::Return(claim) => self.return_of(rt, alloc, claim, jobs.as_mut_slice()),
            Event::Lose(claim) => Reply::Lost(self.lose(claim)),
            Event::Renew => {
                self.renew();
                Reply::Renewed
            }
        }
    }

    /// Answers events, one after another. There is room for their jobs and replies.
    fn answer_all<R: Wait>(
        &mut self,
        rt: &R,
        alloc: Global,
        events: Vec<Event<T::Edit>>,
        jobs: &mut Vec<Option<Stage<K, T>>>,
        replies: &mut Vec<Reply<T::Fault>>,
    )
        requires jobs { vec_len jobs.old ≡ 0 }
        requires replies { vec_len replies.old ≡ 0 }
        requires jobs_fit { length events.items ≤ vec_capacity jobs.old }
        requires replies_fit { length events.items ≤ vec_capacity replies.old }
        ensures { AnswersEvents (meaning T.net T.is_valid T.since T.makes T.keeps T.edited T.last)
            T.refuses T.last self.old events.items replies.new.items self.new }
    {
        for event in events {
            let reply = self.answer(rt, alloc, jobs, event);
            match replies.push(reply) {
                Ok(()) => {}
                Err(_) => unreachable!(),
            }
        }
    }

    /// Answers a list of events, one after another. The room for the replies is made first: where
    /// that is refused, nothing changes. It may wait while another thread grows the store.
    pub fn run_events<R: Wait>(
        &mut self,
        rt: &R,
        alloc: Global,
        events: &[Event<T::Edit>],
    ) -> Result<Vec<Reply<T::Fault>>, AllocError>
        ensures answered { IfOk result (λ replies. AnswersEvents
            (meaning T.net T.is_valid T.since T.makes T.keeps T.edited T.last) T.refuses T.last
            self.old events.now replies.items self.new) }
        ensures err { OnErr result (self.new ≡ self.old) }
    {
        let copies = copy_events::<T>(alloc, events)?;
        let mut replies = Vec::with_capacity(alloc, copies.len())?;
        let mut jobs = Vec::with_capacity(alloc, copies.len())?;
        self.answer_all(rt, alloc, copies, &mut jobs, &mut replies);
        Ok(replies)
    }
}
