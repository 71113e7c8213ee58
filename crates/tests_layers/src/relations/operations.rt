//! Each operation, on relations and sets that look random.
ghost use Rattle.std.specs.Prelude.{◌≤◌};

use crate::relations::digest::{show_relation, show_set};
use crate::relations::random;
use bit_relations::{EventSet, Rel};
use std::io;

const COUNTS: [usize; 10] = [0, 1, 7, 8, 9, 63, 64, 65, 127, 128];

fn show_pairs<R: Print + AllocGlobal>(rt: &R, count: usize, seed: u64) -> io::Result<()>
    requires { count ≤ 128 }
{
    let left = random::relation(rt.alloc(), count, seed)?;
    let right = random::relation(rt.alloc(), count, seed.wrapping_add(1))?;
    show_relation(rt, "insert", &left)?;
    show_relation(rt, "union", &left.union(&right))?;
    show_relation(rt, "inter", &left.inter(&right))?;
    show_relation(rt, "minus", &left.minus(&right))?;
    show_relation(rt, "compose", &left.compose(&right))?;
    show_relation(rt, "inverse", &left.inverse())?;
    show_relation(rt, "complement", &left.complement())
}

fn show_closures<R: Print + AllocGlobal>(rt: &R, count: usize, seed: u64) -> io::Result<()>
    requires { count ≤ 128 }
{
    let relation = random::relation(rt.alloc(), count, seed)?;
    let closure = relation.plus();
    show_relation(rt, "plus", &closure)?;
    show_relation(rt, "identity", &Rel::identity(count))?;
    show_relation(rt, "opt", &relation.opt())?;
    show_relation(rt, "star", &relation.star())?;
    let mut place = closure.complement();
    place.copy_from(&relation);
    println!(rt;
        "acyclic {}, irreflexive {}, empty {}, same {}, same as its complement {}",
        relation.is_acyclic(),
        relation.is_irreflexive(),
        relation.is_empty(),
        place.is_same(&relation),
        relation.is_same(&relation.complement())
    )
}

fn show_products<R: Print + AllocGlobal>(rt: &R, count: usize, seed: u64) -> io::Result<()>
    requires { count ≤ 128 }
{
    let relation = random::relation(rt.alloc(), count, seed)?;
    let left = random::set(rt.alloc(), count, seed.wrapping_add(1))?;
    let right = random::set(rt.alloc(), count, seed.wrapping_add(2))?;
    show_relation(rt, "product", &Rel::product(&left, &right))?;
    show_relation(rt, "on", &Rel::on(&left))?;
    show_relation(rt, "restrict", &relation.restrict(&left))
}

fn show_sets<R: Print + AllocGlobal>(rt: &R, count: usize, seed: u64) -> io::Result<()>
    requires { count ≤ 128 }
{
    let left = random::set(rt.alloc(), count, seed)?;
    let right = random::set(rt.alloc(), count, seed.wrapping_add(1))?;
    show_set(rt, "insert", &left)?;
    show_set(rt, "union", &left.union(&right))?;
    show_set(rt, "inter", &left.inter(&right))?;
    show_set(rt, "minus", &left.minus(&right))?;
    show_set(rt, "complement", &left.complement())?;
    show_set(rt, "all", &EventSet::all(count))?;
    println!(rt;
        "empty {}, same {}",
        left.is_empty(),
        left.is_same(&left.union(&left))
    )
}

/// Prints each operation at each count, three times.
pub fn show<R: Print + AllocGlobal>(rt: &R) -> io::Result<()> {
    for count in COUNTS {
        for seed in 1..4 {
            if count <= 128 {
                println!(rt; "== {count} events, {seed}")?;
                show_pairs(rt, count, seed)?;
                show_closures(rt, count, seed)?;
                show_products(rt, count, seed)?;
                show_sets(rt, count, seed)?;
            }
        }
    }
    Ok(())
}
