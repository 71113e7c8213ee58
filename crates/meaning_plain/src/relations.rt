//! The operators of cat on relations, which are lists of pairs of events.

ghost use Rattle.std.specs.Prelude.{◌≡◌, ◌↔◌, IfOk, OnOk, IsTrue, Contains};
ghost use Rattle.meaning.specs.Sets.{Union, Intersection, Difference, Complement, Identity, Product, Inverse, Sequence, Transitive, Reflexive, Closure};
ghost use Rattle.meaning_plain.specs.Lists.{SetOf, RelationOf, HasPairs, Grows, Given, Joins, JoinsSteps, JoinsThrough, Through};

use std::alloc::{AllocError, Global};

/// Whether the relation has the pair.
pub fn has_pair(pairs: &[(usize, usize)], pair: (usize, usize)) -> bool
    ensures { IsTrue result ↔ Contains pairs.now pair }
{
    pairs.contains(&pair)
}

/// Adds a pair, unless it is there. Errors: want of memory.
pub fn add_pair(pairs: &mut Vec<(usize, usize)>, pair: (usize, usize)) -> Result<(), AllocError>
    ensures { OnOk result (Grows (λ p. p ≡ pair) pairs.old.items pairs.new.items) }
{
    if has_pair(pairs, pair) {
        return Ok(());
    }
    pairs.push(pair)?;
    Ok(())
}

// Adds a pair that the other relation has too.
fn add_common(
    pairs: &mut Vec<(usize, usize)>,
    pair: (usize, usize),
    others: &[(usize, usize)],
) -> Result<(), AllocError>
    ensures { OnOk result (Grows (λ p. (p ≡ pair) × Contains others.now pair) pairs.old.items
        pairs.new.items) }
{
    if !has_pair(others, pair) {
        return Ok(());
    }
    add_pair(pairs, pair)?;
    Ok(())
}

// Adds a pair that the other relation lacks.
fn add_other(
    pairs: &mut Vec<(usize, usize)>,
    pair: (usize, usize),
    others: &[(usize, usize)],
) -> Result<(), AllocError>
    ensures { OnOk result (Grows (λ p. (p ≡ pair) × (Contains others.now pair → ⊥))
        pairs.old.items pairs.new.items) }
{
    if has_pair(others, pair) {
        return Ok(());
    }
    add_pair(pairs, pair)?;
    Ok(())
}

// Adds what a step gives behind a pair.
fn add_step(
    pairs: &mut Vec<(usize, usize)>,
    from: usize,
    through: usize,
    step: (usize, usize),
) -> Result<(), AllocError>
    ensures { OnOk result (Grows (Joins from through step) pairs.old.items pairs.new.items) }
{
    let begin = step.0;
    if begin != through {
        return Ok(());
    }
    add_pair(pairs, (from, step.1))?;
    Ok(())
}

fn add_steps(
    pairs: &mut Vec<(usize, usize)>,
    from: usize,
    through: usize,
    steps: &[(usize, usize)],
) -> Result<(), AllocError>
    ensures { OnOk result (Grows (Given (Joins from through) steps.now) pairs.old.items
        pairs.new.items) }
{
    for step in steps {
        add_step(pairs, from, through, *step)?;
    }
    Ok(())
}

fn add_through(
    pairs: &mut Vec<(usize, usize)>,
    k: usize,
    pair: (usize, usize),
    steps: &[(usize, usize)],
) -> Result<(), AllocError>
    ensures { OnOk result (Grows (JoinsThrough k steps.now pair) pairs.old.items
        pairs.new.items) }
{
    let end = pair.1;
    if end != k {
        return Ok(());
    }
    add_steps(pairs, pair.0, pair.1, steps)?;
    Ok(())
}

fn add_pairs(pairs: &mut Vec<(usize, usize)>, more: &[(usize, usize)]) -> Result<(), AllocError>
    ensures { OnOk result (Grows (Given (λ x p. p ≡ x) more.now) pairs.old.items
        pairs.new.items) }
{
    for pair in more {
        add_pair(pairs, *pair)?;
    }
    Ok(())
}

fn add_all_common(
    pairs: &mut Vec<(usize, usize)>,
    more: &[(usize, usize)],
    others: &[(usize, usize)],
) -> Result<(), AllocError>
    ensures { OnOk result (Grows (Given (λ x p. (p ≡ x) × Contains others.now x) more.now)
        pairs.old.items pairs.new.items) }
{
    for pair in more {
        add_common(pairs, *pair, others)?;
    }
    Ok(())
}

fn add_all_other(
    pairs: &mut Vec<(usize, usize)>,
    more: &[(usize, usize)],
    others: &[(usize, usize)],
) -> Result<(), AllocError>
    ensures { OnOk result (Grows (Given (λ x p. (p ≡ x) × (Contains others.now x → ⊥)) more.now)
        pairs.old.items pairs.new.items) }
{
    for pair in more {
        add_other(pairs, *pair, others)?;
    }
    Ok(())
}

fn add_inverse(pairs: &mut Vec<(usize, usize)>, more: &[(usize, usize)]) -> Result<(), AllocError>
    ensures { OnOk result (Grows (Given (λ x p. p ≡ (x.1, x.0)) more.now) pairs.old.items
        pairs.new.items) }
{
    for pair in more {
        add_pair(pairs, (pair.1, pair.0))?;
    }
    Ok(())
}

fn add_from(pairs: &mut Vec<(usize, usize)>, from: usize, ends: &[usize]) -> Result<(), AllocError>
    ensures { OnOk result (Grows (Given (λ y p. p ≡ (from, y)) ends.now) pairs.old.items
        pairs.new.items) }
{
    for end in ends {
        add_pair(pairs, (from, *end))?;
    }
    Ok(())
}

fn add_itself(pairs: &mut Vec<(usize, usize)>, events: &[usize]) -> Result<(), AllocError>
    ensures { OnOk result (Grows (Given (λ x p. p ≡ (x, x)) events.now) pairs.old.items
        pairs.new.items) }
{
    for event in events {
        add_pair(pairs, (*event, *event))?;
    }
    Ok(())
}

fn add_product(
    pairs: &mut Vec<(usize, usize)>,
    first: &[usize],
    second: &[usize],
) -> Result<(), AllocError>
    ensures { OnOk result (Grows (Given (λ x. Given (λ y p. p ≡ (x, y)) second.now) first.now)
        pairs.old.items pairs.new.items) }
{
    for event in first {
        add_from(pairs, *event, second)?;
    }
    Ok(())
}

fn add_sequence(
    pairs: &mut Vec<(usize, usize)>,
    first: &[(usize, usize)],
    second: &[(usize, usize)],
) -> Result<(), AllocError>
    ensures { OnOk result (Grows (Given (JoinsSteps second.now) first.now) pairs.old.items
        pairs.new.items) }
{
    for pair in first {
        add_steps(pairs, pair.0, pair.1, second)?;
    }
    Ok(())
}

fn add_all_through(
    pairs: &mut Vec<(usize, usize)>,
    k: usize,
    steps: &[(usize, usize)],
) -> Result<(), AllocError>
    ensures { OnOk result (Grows (Given (JoinsThrough k steps.now) steps.now) pairs.old.items
        pairs.new.items) }
{
    for pair in steps {
        add_through(pairs, k, *pair, steps)?;
    }
    Ok(())
}

/// `r | s`. Errors: want of memory, as in all that follows.
pub fn union(
    alloc: Global,
    first: &[(usize, usize)],
    second: &[(usize, usize)],
) -> Result<Vec<(usize, usize)>, AllocError>
    ensures { IfOk result (λ v. HasPairs (Union (RelationOf first.now) (RelationOf second.now))
        v.items) }
{
    let mut pairs = Vec::new(alloc);
    add_pairs(&mut pairs, first)?;
    add_pairs(&mut pairs, second)?;
    Ok(pairs)
}

/// `r & s`.
pub fn intersection(
    alloc: Global,
    first: &[(usize, usize)],
    second: &[(usize, usize)],
) -> Result<Vec<(usize, usize)>, AllocError>
    ensures { IfOk result (λ v. HasPairs
        (Intersection (RelationOf first.now) (RelationOf second.now)) v.items) }
{
    let mut pairs = Vec::new(alloc);
    add_all_common(&mut pairs, first, second)?;
    Ok(pairs)
}

/// `r \ s`.
pub fn difference(
    alloc: Global,
    first: &[(usize, usize)],
    second: &[(usize, usize)],
) -> Result<Vec<(usize, usize)>, AllocError>
    ensures { IfOk result (λ v. HasPairs
        (Difference (RelationOf first.now) (RelationOf second.now)) v.items) }
{
    let mut pairs = Vec::new(alloc);
    add_all_other(&mut pairs, first, second)?;
    Ok(pairs)
}

/// `s * t`.
pub fn product(
    alloc: Global,
    first: &[usize],
    second: &[usize],
) -> Result<Vec<(usize, usize)>, AllocError>
    ensures { IfOk result (λ v. HasPairs (Product (SetOf first.now) (SetOf second.now))
        v.items) }
{
    let mut pairs = Vec::new(alloc);
    add_product(&mut pairs, first, second)?;
    Ok(pairs)
}

/// `~r`, where `all` is the set of all events.
pub fn complement(
    alloc: Global,
    all: &[usize],
    pairs: &[(usize, usize)],
) -> Result<Vec<(usize, usize)>, AllocError>
    ensures { IfOk result (λ v. HasPairs (Complement (SetOf all.now) (RelationOf pairs.now))
        v.items) }
{
    let whole = product(alloc, all, all)?;
    let rest = difference(alloc, &whole, pairs)?;
    Ok(rest)
}

/// `[s]`.
pub fn identity(alloc: Global, set: &[usize]) -> Result<Vec<(usize, usize)>, AllocError>
    ensures { IfOk result (λ v. HasPairs (Identity (SetOf set.now)) v.items) }
{
    let mut pairs = Vec::new(alloc);
    add_itself(&mut pairs, set)?;
    Ok(pairs)
}

/// `r^-1`.
pub fn inverse(alloc: Global, pairs: &[(usize, usize)]) -> Result<Vec<(usize, usize)>, AllocError>
    ensures { IfOk result (λ v. HasPairs (Inverse (RelationOf pairs.now)) v.items) }
{
    let mut turned = Vec::new(alloc);
    add_inverse(&mut turned, pairs)?;
    Ok(turned)
}

/// `r ; s`.
pub fn sequence(
    alloc: Global,
    first: &[(usize, usize)],
    second: &[(usize, usize)],
) -> Result<Vec<(usize, usize)>, AllocError>
    ensures { IfOk result (λ v. HasPairs
        (Sequence (RelationOf first.now) (RelationOf second.now)) v.items) }
{
    let mut pairs = Vec::new(alloc);
    add_sequence(&mut pairs, first, second)?;
    Ok(pairs)
}

// The pairs, and those of two steps through k.
fn with_through(
    alloc: Global,
    pairs: &[(usize, usize)],
    k: usize,
) -> Result<Vec<(usize, usize)>, AllocError>
    ensures { IfOk result (λ v. HasPairs (Through (RelationOf pairs.now) k) v.items) }
{
    let mut more = Vec::from_slice(alloc, pairs)?;
    add_all_through(&mut more, k, pairs)?;
    Ok(more)
}

/// `r+`: steps through the begin of each pair in turn.
pub fn transitive(
    alloc: Global,
    pairs: &[(usize, usize)],
) -> Result<Vec<(usize, usize)>, AllocError>
    ensures { IfOk result (λ v. HasPairs (Transitive (RelationOf pairs.now)) v.items) }
{
    let mut closed = Vec::from_slice(alloc, pairs)?;
    for pair in pairs {
        let more = with_through(alloc, &closed, pair.0)?;
        closed = more;
    }
    Ok(closed)
}

/// `r?`, where `all` is the set of all events.
pub fn reflexive(
    alloc: Global,
    all: &[usize],
    pairs: &[(usize, usize)],
) -> Result<Vec<(usize, usize)>, AllocError>
    ensures { IfOk result (λ v. HasPairs (Reflexive (SetOf all.now) (RelationOf pairs.now))
        v.items) }
{
    let itself = identity(alloc, all)?;
    let whole = union(alloc, &itself, pairs)?;
    Ok(whole)
}

/// `r*`, likewise.
pub fn closure(
    alloc: Global,
    all: &[usize],
    pairs: &[(usize, usize)],
) -> Result<Vec<(usize, usize)>, AllocError>
    ensures { IfOk result (λ v. HasPairs (Closure (SetOf all.now) (RelationOf pairs.now))
        v.items) }
{
    let itself = identity(alloc, all)?;
    let paths = transitive(alloc, pairs)?;
    let whole = union(alloc, &itself, &paths)?;
    Ok(whole)
}
