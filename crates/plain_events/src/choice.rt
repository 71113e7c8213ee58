//! All ways to choose an index for each of some lists.

ghost use Rattle.std.specs.Prelude.{◌≡◌, [], ◌∷◌, map, IfOk};
ghost use Rattle.meaning.specs.Sets.{IsOnce, IsListOf};
ghost use Rattle.plain_events.specs.Choices.{lists_as, IsIndexChoice, BeginsBelow};

use std::alloc::{AllocError, Global};

// The choice with an index before it.
fn begun(alloc: Global, index: usize, rest: &[usize]) -> Result<Vec<usize>, AllocError>
    ensures { IfOk result (λ v. v.items ≡ index ∷ rest.now) }
{
    let mut longer = Vec::new(alloc);
    longer.push(index)?;
    longer.extend_from_slice(rest)?;
    Ok(longer)
}

fn all_begun(
    alloc: Global,
    index: usize,
    rests: &[Vec<usize>],
) -> Result<Vec<Vec<usize>>, AllocError>
    ensures { IfOk result (λ v. lists_as v.items ≡ map (λ ks. index ∷ ks) (lists_as rests.now)) }
{
    let mut longer = Vec::new(alloc);
    for rest in rests {
        let one = begun(alloc, index, rest)?;
        longer.push(one)?;
    }
    Ok(longer)
}

// The choices that begin with an index below the count.
fn with_index(
    alloc: Global,
    count: usize,
    rests: &[Vec<usize>],
) -> Result<Vec<Vec<usize>>, AllocError>
    requires { IsOnce (lists_as rests.now) }
    ensures { IfOk result (λ v. IsListOf (BeginsBelow count (lists_as rests.now))
        (lists_as v.items)) }
{
    let mut all = Vec::new(alloc);
    for index in 0..count {
        let mut more = all_begun(alloc, index, rests)?;
        all.append(&mut more)?;
    }
    Ok(all)
}

// The choice of nothing.
fn one_choice(alloc: Global) -> Result<Vec<Vec<usize>>, AllocError>
    ensures { IfOk result (λ v. IsListOf (IsIndexChoice []) (lists_as v.items)) }
{
    let mut all = Vec::new(alloc);
    all.push(Vec::new(alloc))?;
    Ok(all)
}

// The choices that begin with an index below the count, and go on with one below each of the rest.
#[cycle(choices)]
fn choices_behind(
    alloc: Global,
    count: usize,
    rest: &[usize],
) -> Result<Vec<Vec<usize>>, AllocError>
    ensures { IfOk result (λ v. IsListOf (IsIndexChoice (count ∷ rest.now)) (lists_as v.items)) }
{
    let rests = choices(alloc, rest)?;
    let all = with_index(alloc, count, &rests)?;
    Ok(all)
}

/// All lists of an index below each of the counts. Errors: want of memory.
#[cycle(choices)]
pub fn choices(alloc: Global, counts: &[usize]) -> Result<Vec<Vec<usize>>, AllocError>
    ensures { IfOk result (λ v. IsListOf (IsIndexChoice counts.now) (lists_as v.items)) }
{
    match counts.split_first() {
        Some((count, rest)) => choices_behind(alloc, *count, rest),
        None => one_choice(alloc),
    }
}
