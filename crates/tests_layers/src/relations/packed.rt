//! Relations packed in columns.
ghost use Rattle.std.specs.Prelude.{◌<◌, ◌≤◌, length};

use crate::relations::digest::show_relation;
use bit_relations::Rel;
use relation_columns::{Cursor, RunColumn};
use std::alloc::{AllocError, Global};
use std::io;

const COUNTS: [usize; 6] = [0, 1, 63, 64, 65, 128];

/// Each event with each other.
fn others(count: usize) -> Rel
    requires { count ≤ 128 }
{
    Rel::identity(count).complement()
}

/// The relation of each other event, then one on 5 events, then the identity.
fn three(alloc: Global, count: usize) -> Result<RunColumn, AllocError>
    requires { count ≤ 128 }
{
    let mut list = RunColumn::new(alloc);
    list.push(&others(count))?;
    list.push(&others(5))?;
    list.push(&Rel::identity(count))?;
    Ok(list)
}

/// Prints each relation of a list, read over another of 100 events.
fn show_list<R: Print>(rt: &R, list: &RunColumn) -> io::Result<()> {
    let mut cursor = Cursor::new();
    for k in 0..list.len() {
        let mut place = Rel::identity(100);
        list.read(&mut cursor, k, &mut place);
        println!(rt; "{k}: {} events", place.count())?;
        show_relation(rt, "read", &place)?;
    }
    Ok(())
}

/// Whether one of a list is this relation.
fn is_same_at(list: &RunColumn, k: usize, relation: &Rel) -> bool
    requires { k < length list.now }
{
    let mut place = Rel::identity(100);
    list.read(&mut Cursor::new(), k, &mut place);
    place.is_same(relation)
}

fn show_three<R: Print + AllocGlobal>(rt: &R, count: usize) -> io::Result<()>
    requires { count ≤ 128 }
{
    let mut list = three(rt.alloc(), count)?;
    show_list(rt, &list)?;
    let again = three(rt.alloc(), count)?;
    println!(rt; "same {}", list.is_same(&again))?;
    if 2 < list.len() {
        let here = is_same_at(&list, 2, &Rel::identity(count));
        let there = is_same_at(&list, 2, &others(5));
        println!(rt; "same at 2: {here}, of the one at 1: {there}")?;
    }
    list.push(&Rel::empty(count))?;
    println!(rt; "same with one more {}", list.is_same(&again))
}

fn show_wordless<R: Print + AllocGlobal>(rt: &R) -> io::Result<()> {
    let mut list = RunColumn::new(rt.alloc());
    let none = RunColumn::new(rt.alloc());
    println!(rt; "empty {}", list.len() == 0)?;
    list.push(&Rel::empty(0))?;
    println!(rt; "empty {}, same {}", list.len() == 0, list.is_same(&none))
}

/// Prints lists of relations at each count, and a list of a relation that takes no words.
pub fn show<R: Print + AllocGlobal>(rt: &R) -> io::Result<()> {
    for count in COUNTS {
        if count <= 128 {
            println!(rt; "== list of {count} events")?;
            show_three(rt, count)?;
        }
    }
    println!(rt; "== list without words")?;
    show_wordless(rt)
}
