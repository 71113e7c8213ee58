//! Workers that must work at once: each of the first claims is held until others have begun or have
//! ended.

pub mod gate;

use crate::desks::{self, Example, Played};
use crate::played::ViewedDesk;
use crate::rows::replies::{put_tally, told};
use bench_texts::Edit;
use bench_workers::Tally;
use desk::Accepted;
use gate::{Held, Meeting};
use std::alloc::{AllocError, Global};
use std::io;
use std::rt::Clock;
use std::sync::Wait;
use std::thread::Threads;
use text_values::{put_bytes, put_decimal};

const MP: &[u8] =
    b"PPC MP\n{ 0:r2=x; 0:r4=y; 1:r2=y; 1:r4=x; }\nP0 | P1 ;\nli r1,1 | lwz r1,0(r2) ;\nstw r1,0(r2) | lwz r3,0(r4) ;\nli r3,1 | ;\nstw r3,0(r4) | ;\nexists (1:r1=1 /\\ 1:r3=0)\n";

const SC: &[u8] = b"acyclic po|rf|fr|co as sc\n";

/// Puts CoWR under a name that ends with a number.
fn put_small(alloc: Global, number: u64) -> Result<Edit, AllocError> {
    let mut text = Vec::new(alloc);
    put_bytes(&mut text, b"PPC CoWR")?;
    put_decimal(&mut text, number)?;
    put_bytes(
        &mut text,
        b"\n{ 0:r2=x; }\nP0 ;\nli r1,1 ;\nstw r1,0(r2) ;\nlwz r3,0(r2) ;\nexists (0:r3=0)\n",
    )?;
    Ok(Edit::PutTest { text })
}

/// What is put on the desk: MP if it is wanted, so many small tests, and a model.
#[derive(Clone, Copy)]
pub struct Puts {
    with_mp: bool,
    small: u64,
}

/// What is put on a desk, how many workers it has, and which claims are held.
#[derive(Clone, Copy)]
pub struct Setting {
    pub puts: Puts,
    pub workers: u32,
    pub held: Held,
}

const SETTINGS: [Setting; 2] = [
    Setting {
        puts: Puts {
            with_mp: true,
            small: 1,
        },
        workers: 2,
        held: Held {
            first: 1,
            until_begun: 0,
            until_ended: 1,
        },
    },
    Setting {
        puts: Puts {
            with_mp: false,
            small: 32,
        },
        workers: 32,
        held: Held {
            first: 32,
            until_begun: 32,
            until_ended: 0,
        },
    },
];

/// The edit of a number: 0 is MP, the small tests begin at 1, and what follows is the model.
fn edit_at(alloc: Global, puts: Puts, number: u64) -> Result<Edit, AllocError> {
    if number == 0 {
        let text = Vec::from_slice(alloc, MP)?;
        return Ok(Edit::PutTest { text });
    }
    if number <= puts.small {
        return put_small(alloc, number);
    }
    Ok(Edit::PutModel {
        model: Vec::from_slice(alloc, b"sc")?,
        text: Vec::from_slice(alloc, SC)?,
    })
}

/// Makes the edit of a number. False if it is not published at once, or the desk refuses.
fn put<D: ViewedDesk, W: Wait>(
    rt: &W,
    alloc: Global,
    desk: &D,
    viewer: &mut D::Viewer,
    puts: Puts,
    number: u64,
) -> Result<bool, AllocError> {
    let edit = edit_at(alloc, puts, number)?;
    Ok(matches!(desk.edit(rt, viewer, edit), Ok(Accepted::Now(_))))
}

/// Makes the edits and waits until each cell is settled. False if one of them is not published at
/// once, or the desk refuses.
pub fn settle<D: ViewedDesk, W: Wait>(
    rt: &W,
    alloc: Global,
    desk: &D,
    viewer: D::Viewer,
    puts: Puts,
) -> Result<bool, AllocError> {
    let mut viewer = viewer;
    let mut is_well = true;
    let first = if puts.with_mp { 0 } else { 1 };
    for number in first..=puts.small.saturating_add(1) {
        is_well &= put(rt, alloc, desk, &mut viewer, puts, number)?;
    }
    Ok(desk.settle(rt, &mut viewer, true).is_ok() && is_well)
}

fn print_tally<R>(rt: &R, workers: u32, tally: &Tally, is_well: bool) -> io::Result<()>
where
    R: Print + AllocGlobal,
{
    let word = if is_well { "settled" } else { "not settled" };
    let mut text = Vec::new(rt.alloc());
    put_tally(&mut text, tally)?;
    print!(rt; "{workers} workers: {word}, ")?;
    rt.print(told(rt.alloc(), text, false)?)
}

/// Tells what became of the jobs of workers under a gate, beside whom a desk was settled.
pub fn tell<R>(rt: &R, gate: &Meeting, workers: u32, played: Played) -> io::Result<()>
where
    R: Print + AllocGlobal + Wait,
{
    match played {
        Ok((answer, tally)) => {
            let is_met = answer? == 0 && !gate.counts(rt).is_missed;
            print_tally(rt, workers, &tally, is_met)
        }
        Err(word) => println!(rt; "{word}"),
    }
}

/// Two workers, of which the first waits until the second has ended a job; and 32 that wait until
/// all have begun one.
pub fn show<R>(rt: &R) -> io::Result<()>
where
    R: Print + AllocGlobal + Clock + Wait + Threads + Copy + Send + Sync + Drop,
{
    for setting in SETTINGS {
        desks::play(rt, None, Example::Meeting(setting))?;
    }
    Ok(())
}
