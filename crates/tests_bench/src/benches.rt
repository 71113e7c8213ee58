//! New benches, and what is played at them.

ghost use Rattle.std.specs.Prelude.{◌≡◌};

use crate::claimed::ClaimedBench;
use crate::numbered::NumberedBench;
use crate::{rows, walk};
use bench_instance::StampedTexts;
use bench_values::NodeValue;
use cells::bench::Bench;
use std::alloc::Global;
use std::io;
use std::marker::Brand;
use std::sync::Wait;
use value_store::{Opened, Store, StoreName};

/// What is played at a bench.
#[derive(Clone, Copy)]
pub enum Example<'a> {
    /// The lines of a list.
    Lines(&'a [&'a str]),
    /// A walk by events that are drawn.
    Walk,
}

/// Plays at a bench.
fn play_at<R, B>(rt: &R, alloc: Global, bench: B, example: Example<'_>) -> io::Result<()>
where
    R: Print + Wait,
    B: NumberedBench,
{
    match example {
        Example::Lines(lines) => rows::play_at_bench(rt, alloc, bench, lines),
        Example::Walk => walk::walk_over(rt, alloc, bench),
    }
}

/// Plays at a bench over a store.
fn play_over<R: Print + Wait, K: StoreName>(
    rt: &R,
    alloc: Global,
    opened: Opened<NodeValue>,
    example: Example<'_>,
) -> io::Result<()>
    requires { opened.values ≡ K.shelves }
{
    let bench = Bench::<K, StampedTexts>::new(alloc, opened.named::<K>())?;
    play_at(rt, alloc, ClaimedBench::new(alloc, bench), example)
}

/// Plays at a new bench, whose store has so many values at most, if a limit is given.
pub fn play<R: Print + Wait + AllocGlobal>(
    rt: &R,
    limit: Option<usize>,
    example: Example<'_>,
) -> io::Result<()> {
    let alloc = rt.alloc();
    let opened = match limit {
        Some(limit) => Store::with_limit(alloc, limit)?,
        None => Store::new(alloc)?,
    };
    play_over::<R, Brand>(rt, alloc, opened, example)
}
