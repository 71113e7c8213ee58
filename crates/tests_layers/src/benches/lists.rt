//! Lists of events at a bench of cells over a sheet, with their replies.

use crate::benches::answer::{Answer, counted, finished, print_answer, told};
use crate::benches::cases::{Words, change_of, words_of};
use crate::benches::sheet::{Change, Sheet, SheetFault};
use cells::bench::Bench;
use cells::events::{Event, Reply};
use std::alloc::Global;
use std::io;
use std::sync::Wait;
use value_store::StoreName;

fn event_of(words: Words<'_>) -> Event<Change> {
    if let Some(change) = change_of(words) {
        return Event::Edit(change);
    }
    match words.verb {
        "claim" => Event::Claim,
        "return" => Event::Return(words.first),
        "lose" => Event::Lose(words.first),
        _ => Event::Renew,
    }
}

fn replied(reply: &Reply<SheetFault>) -> Answer {
    match reply {
        Reply::Edited(Ok(number)) => counted("edit", *number),
        Reply::Edited(Err(SheetFault::Missing)) => told("no such row"),
        Reply::Edited(Err(_)) => told("refused"),
        Reply::Claimed(Ok(Some(number))) => counted("claim", *number),
        Reply::Claimed(Ok(None)) => told("no work"),
        Reply::Claimed(Err(_)) => told("refused"),
        Reply::Returned(Ok(finish)) => finished(finish),
        Reply::Returned(Err(_)) => told("refused"),
        Reply::Lost(true) => told("lost"),
        Reply::Lost(false) => told("not out"),
        Reply::Renewed => told("renewed"),
    }
}

/// Answers the events of a list, which are parted by semicolons, and prints the replies.
pub fn play<R: Print + Wait, K: StoreName>(
    rt: &R,
    alloc: Global,
    bench: &mut Bench<K, Sheet>,
    list: &str,
) -> io::Result<()> {
    let mut events = Vec::new(alloc);
    for event in list.split(';') {
        events.push(event_of(words_of(event)))?;
    }
    let replies = bench.run_events(rt, alloc, &events)?;
    for reply in &replies {
        print_answer(rt, replied(reply))?;
    }
    Ok(())
}
