//! The events of runs, with what each does.

ghost use Rattle.std.specs.Prelude.{◌≡◌, All, map, IfOk, OnOk};
ghost use Rattle.text_values.specs.TestValue.{content_of};
ghost use Rattle.meaning.specs.Sets.{IsOnce};
ghost use Rattle.meaning.specs.Names as names;
ghost use Rattle.meaning.specs.Executions.{IsEvent};
ghost use Rattle.plain_runs.specs.Keeping.{PutsIf};
ghost use Rattle.plain_runs.specs.Runs.{run_as};
ghost use Rattle.plain_runs.specs.Locations.{names_as};
ghost use Rattle.plain_events.specs.Events.{event_as, of_runs};
ghost use Rattle.plain_names.specs.Seen.{seen_events, IsSeenAs, AreSeenAmong, IsLookedAt};

use plain_events::action::action;
use plain_events::event::{Action, Event};
use plain_events::node::{loads, nodes};
use plain_runs::run::Run;
use std::alloc::{AllocError, Global};
use text_values::Test;

/// An event, and what it does.
#[derive(Clone, Copy)]
pub struct Seen<'a> {
    /// The event.
    pub event: Event<'a>,
    /// What it does.
    pub action: Action<'a>,
}

/// What is shown of runs.
#[derive(Drop)]
pub struct Shown<'a> {
    /// Its events.
    pub seen: Vec<Seen<'a>>,
    /// Its loads, in the order of the threads and of their runs.
    pub loads: Vec<Event<'a>>,
}

// Puts an event, if it does something.
fn put_seen<'a>(
    seen: &mut Vec<Seen<'a>>,
    test: &'a Test,
    locations: &[&'a [u8]],
    runs: &[Run<'a>],
    event: &Event<'a>,
) -> Result<(), AllocError>
    requires locations { names_as locations.now ≡ names.locations (content_of test.now) }
    requires actions { All (IsSeenAs (content_of test.now) (of_runs (map run_as runs.now)))
        seen.now.items }
    ensures puts { OnOk result (PutsIf (IsEvent (content_of test.now)
        (of_runs (map run_as runs.now)) (event_as event.now)) (event_as event.now)
        (seen_events seen.old.items) (seen_events seen.new.items)) }
    ensures actions { OnOk result (All (IsSeenAs (content_of test.now)
        (of_runs (map run_as runs.now))) seen.new.items) }
{
    match action(test, locations, runs, event) {
        Some(action) => {
            let one = Seen {
                event: *event,
                action,
            };
            seen.push(one)?;
            Ok(())
        }
        None => Ok(()),
    }
}

// The events among these, with what each does.
fn seen_among<'a>(
    alloc: Global,
    test: &'a Test,
    locations: &[&'a [u8]],
    runs: &[Run<'a>],
    all: &[Event<'a>],
) -> Result<Vec<Seen<'a>>, AllocError>
    requires once { IsOnce (map event_as all.now) }
    requires locations { names_as locations.now ≡ names.locations (content_of test.now) }
    ensures { IfOk result (λ v. AreSeenAmong (map event_as all.now) (content_of test.now)
        (of_runs (map run_as runs.now)) v.items) }
{
    let mut seen = Vec::new(alloc);
    for event in all {
        put_seen(&mut seen, test, locations, runs, event)?;
    }
    Ok(seen)
}

/// The events of runs, with what each does. Errors: want of memory.
pub fn looked_at<'a>(
    alloc: Global,
    test: &'a Test,
    locations: &[&'a [u8]],
    runs: &[Run<'a>],
) -> Result<Shown<'a>, AllocError>
    requires once { IsOnce (names_as locations.now) }
    requires locations { names_as locations.now ≡ names.locations (content_of test.now) }
    ensures { IfOk result (IsLookedAt (content_of test.now) (of_runs (map run_as runs.now))) }
{
    let all = nodes(alloc, locations, runs)?;
    let seen = seen_among(alloc, test, locations, runs, &all)?;
    let loads = loads(alloc, runs)?;
    Ok(Shown { seen, loads })
}
