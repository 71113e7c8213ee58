//! The closure of a chain, and of the ring that one more pair makes of it.
ghost use Rattle.std.specs.Prelude.{◌≡◌, ◌≤◌};

use crate::relations::digest::show_relation;
use bit_relations::Rel;
use std::io;

const COUNTS: [usize; 9] = [1, 7, 8, 9, 63, 64, 65, 127, 128];

/// The relation of each event to the next.
pub fn chain(count: usize) -> Rel
    requires { count ≤ 128 }
    ensures { result.count ≡ count }
{
    let mut made = Rel::empty(count);
    for i in 1..count {
        made.insert(i - 1, i);
    }
    made
}

fn show_chain<R: Print>(rt: &R, count: usize) -> io::Result<()>
    requires { count ≤ 128 }
{
    let mut relation = chain(count);
    show_relation(rt, "chain", &relation.plus())?;
    println!(rt; "acyclic {}", relation.is_acyclic())?;
    if count > 0 {
        relation.insert(count - 1, 0);
    }
    show_relation(rt, "ring", &relation.plus())?;
    println!(rt; "acyclic {}", relation.is_acyclic())
}

/// Prints both at each count.
pub fn show<R: Print>(rt: &R) -> io::Result<()> {
    for count in COUNTS {
        if count <= 128 {
            println!(rt; "== chain of {count} events")?;
            show_chain(rt, count)?;
        }
    }
    Ok(())
}
