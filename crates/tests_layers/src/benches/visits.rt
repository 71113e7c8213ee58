//! What claims and edits ask a sheet for, beside few rows and many. A count is of used nodes, of
//! nodes that the edit touched, of nodes that stand on these, and of memos where one has to go.

ghost use Rattle.std.specs.Prelude.{◌≡◌};

use crate::benches::play::Play;
use crate::benches::sheet::Change;
use cells::bench::Bench;
use std::alloc::{AllocError, Global};
use std::io;
use std::marker::Brand;
use std::sync::Wait;
use value_store::{Opened, Store, StoreName};

/// Makes a change, and tells how often the sheet was asked meanwhile.
fn asked_by<K: StoreName>(play: &mut Play<K>, alloc: Global, change: Change) -> u64 {
    let before = play.bench.texts().asked();
    let _answer = play.edit(alloc, change);
    play.bench.texts().asked().wrapping_sub(before)
}

/// Claims where there is no work, and tells how often the sheet was asked meanwhile.
fn asked_idle<K: StoreName>(play: &mut Play<K>, alloc: Global) -> Result<u64, AllocError> {
    let before = play.bench.texts().asked();
    let _answer = play.claim(alloc)?;
    Ok(play.bench.texts().asked().wrapping_sub(before))
}

/// Settles a sheet of so many rows, and prints what a claim and each of four edits ask for.
fn show_rows<R: Print + Wait, K: StoreName>(
    rt: &R,
    alloc: Global,
    opened: Opened<u64>,
    rows: u64,
) -> io::Result<()>
    requires { opened.values ≡ K.shelves }
{
    let bench = Bench::new(alloc, opened.named::<K>())?;
    let mut play = Play::new(alloc, bench);
    for name in 0..rows {
        let _answer = play.edit(alloc, Change::Put(name, 1));
    }
    let _answer = play.settle(rt, alloc);
    let idle = asked_idle(&mut play, alloc)?;
    let row = asked_by(&mut play, alloc, Change::Put(0, 2));
    let same = asked_by(&mut play, alloc, Change::SetBase(0));
    let base = asked_by(&mut play, alloc, Change::SetBase(50));
    let gone = asked_by(&mut play, alloc, Change::Remove(0));
    print!(rt; "{rows} rows: a claim without work {idle}, a row is set {row}, ")?;
    println!(rt; "the base stays {same}, the base changes {base}, a row goes {gone}")
}

/// Prints what claims and edits ask for beside 10 rows, and beside 80.
pub fn show<R: Print + AllocGlobal + Wait>(rt: &R) -> io::Result<()> {
    show_rows::<R, Brand>(rt, rt.alloc(), Store::new(rt.alloc())?, 10)?;
    show_rows::<R, Brand>(rt, rt.alloc(), Store::new(rt.alloc())?, 80)
}
