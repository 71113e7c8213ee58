//! Shortest cycles of rings with one more pair, and the least pairs.
ghost use Rattle.std.specs.Prelude.{◌≡◌, ◌≤◌};

use crate::relations::chains::chain;
use crate::relations::digest::show_events;
use bit_relations::Rel;
use relation_cycles::{cycle_through, first_reflexive, least_pair, shortest_cycle};
use std::io;

const COUNTS: [usize; 5] = [2, 7, 64, 65, 128];

/// The relation of each event to the next and of the last to the first.
fn ring(count: usize) -> Rel
    requires { count ≤ 128 }
    ensures { result.count ≡ count }
{
    let mut made = chain(count);
    if count > 0 {
        made.insert(count - 1, 0);
    }
    made
}

fn show_cycle<R: Print>(rt: &R, name: &str, cycle: Option<Vec<usize>>) -> io::Result<()> {
    match cycle {
        Some(events) => show_events(rt, name, &events),
        None => println!(rt; "{name}: no cycle"),
    }
}

/// Prints the least pair, the least event related to itself, and shortest cycles: any, and through
/// an event.
fn show_faults<R: Print + AllocGlobal>(rt: &R, relation: &Rel, through: usize) -> io::Result<()> {
    println!(rt; "least pair {:?}", least_pair(relation))?;
    println!(rt; "first reflexive {:?}", first_reflexive(relation))?;
    show_cycle(rt, "shortest", shortest_cycle(rt.alloc(), relation)?)?;
    if through < relation.count() {
        let cycle = cycle_through(rt.alloc(), relation, through)?;
        show_cycle(rt, "through", cycle)?;
    }
    Ok(())
}

/// A ring; with a pair back to its middle; and with its last event related to itself.
fn show_rings<R: Print + AllocGlobal>(rt: &R, count: usize) -> io::Result<()>
    requires { count ≤ 128 }
{
    let mut relation = ring(count);
    show_faults(rt, &relation, 0)?;
    if count > 1 {
        relation.insert(count - 1, count / 2);
        show_faults(rt, &relation, 0)?;
        relation.insert(count - 1, count - 1);
        show_faults(rt, &relation, count - 2)?;
    }
    show_faults(rt, &Rel::empty(count), 0)
}

/// Prints what is wrong with rings at each count.
pub fn show<R: Print + AllocGlobal>(rt: &R) -> io::Result<()> {
    for count in COUNTS {
        if count <= 128 {
            println!(rt; "== rings of {count} events")?;
            show_rings(rt, count)?;
        }
    }
    Ok(())
}
