//! What is found of the executions that satisfy a proposition, as text.

ghost use Rattle.std.specs.Prelude.{◌≡◌, ◌++◌, [], IfOk, OnOk, length, map};
ghost use Rattle.std.specs.List.{list_any, count_by};
ghost use Rattle.why_text.specs.Findings.{kind_of, is_of_kind, texts_in, once_text, new_for, told_with, told_text};
ghost use Rattle.why_text.specs.Findings.{reasons_text, count_line, reasons_if, findings_text};

use crate::event::{Telling, ToldEvent, put_events};
use crate::reason::{Reason, put_reason};
use std::alloc::{AllocError, Global};
use text_values::{Name, put_bytes, put_decimal};

/// What is found of the executions that satisfy a proposition.
#[derive(Drop)]
pub struct Findings {
    /// How many of them a model keeps.
    pub kept: usize,
    /// The events of the first that it keeps.
    pub shown: Vec<ToldEvent>,
    /// Why it forbids each of the others.
    pub reasons: Vec<Reason>,
}

fn telling(locations: &[Name], shows: bool) -> Telling<'_>
    ensures shows { result.shows ≡ shows }
    ensures locations { result.locations.now ≡ locations.now }
    ensures initial { result.initial_count ≡ length locations.now }
{
    Telling {
        shows,
        locations,
        initial_count: locations.len(),
    }
}

// What a reason has in common with those that differ from it in values alone.
#[tactic(auto, unfolding(crate::specs::Findings::kind_of))]
fn reason_kind(alloc: Global, locations: &[Name], reason: &Reason) -> Result<Vec<u8>, AllocError>
    ensures { IfOk result (λ v. v.items ≡ kind_of locations.now reason.now) }
{
    let mut kind = Vec::new(alloc);
    put_reason(&mut kind, telling(locations, false), reason)?;
    Ok(kind)
}

fn kinds_of(
    alloc: Global,
    locations: &[Name],
    reasons: &[Reason],
) -> Result<Vec<Vec<u8>>, AllocError>
    ensures { IfOk result (λ v. texts_in v.items ≡ map (kind_of locations.now) reasons.now) }
{
    let mut kinds = Vec::new(alloc);
    for reason in reasons {
        kinds.push(reason_kind(alloc, locations, reason)?)?;
    }
    Ok(kinds)
}

fn is_same(kind: &[u8], other: &[u8]) -> bool
    ensures { result ≡ is_of_kind kind.now other.now }
{
    kind == other
}

fn count_of(kinds: &[Vec<u8>], kind: &[u8]) -> usize
    ensures { result ≡ count_by (is_of_kind kind.now) (texts_in kinds.now) }
{
    let mut count = 0;
    for other in kinds {
        if is_same(kind, other) {
            count += 1;
        }
    }
    count
}

fn is_among(kinds: &[Vec<u8>], kind: &[u8]) -> bool
    ensures { result ≡ list_any (is_of_kind kind.now) (texts_in kinds.now) }
{
    for other in kinds {
        if is_same(kind, other) {
            return true;
        }
    }
    false
}

// Appends a reason with the number of its kind.
#[tactic(auto, unfolding(crate::specs::Findings::once_text))]
fn put_once(
    text: &mut Vec<u8>,
    locations: &[Name],
    count: usize,
    reason: &Reason,
) -> Result<(), AllocError>
    ensures { OnOk result (text.new.items
        ≡ text.old.items ++ once_text locations.now count reason.now) }
{
    put_decimal(text, count as u64)?;
    put_bytes(text, b" by ")?;
    put_reason(text, telling(locations, true), reason)
}

// Appends a reason if its kind is not told yet.
fn put_new(
    alloc: Global,
    text: &mut Vec<u8>,
    locations: &[Name],
    kinds: &[Vec<u8>],
    told: &mut Vec<Vec<u8>>,
    reason: &Reason,
) -> Result<(), AllocError>
    ensures text { OnOk result (text.new.items
        ≡ text.old.items ++ new_for locations.now kinds.now told.old.items reason.now) }
    ensures told { OnOk result (texts_in told.new.items
        ≡ told_with locations.now (texts_in told.old.items) reason.now) }
{
    let kind = reason_kind(alloc, locations, reason)?;
    if is_among(told, &kind) {
        return Ok(());
    }
    put_once(text, locations, count_of(kinds, &kind), reason)?;
    told.push(kind)?;
    Ok(())
}

fn put_told(
    alloc: Global,
    text: &mut Vec<u8>,
    locations: &[Name],
    kinds: &[Vec<u8>],
    reasons: &[Reason],
) -> Result<(), AllocError>
    ensures { OnOk result (text.new.items
        ≡ text.old.items ++ told_text locations.now (texts_in kinds.now) [] reasons.now) }
{
    let mut told = Vec::new(alloc);
    for reason in reasons {
        put_new(alloc, text, locations, kinds, &mut told, reason)?;
    }
    Ok(())
}

#[tactic(auto, unfolding(crate::specs::Findings::reasons_text))]
fn put_reasons(
    alloc: Global,
    text: &mut Vec<u8>,
    locations: &[Name],
    reasons: &[Reason],
) -> Result<(), AllocError>
    ensures { OnOk result (text.new.items
        ≡ text.old.items ++ reasons_text locations.now reasons.now) }
{
    let kinds = kinds_of(alloc, locations, reasons)?;
    put_told(alloc, text, locations, &kinds, reasons)
}

fn put_reasons_if(
    alloc: Global,
    text: &mut Vec<u8>,
    told: bool,
    locations: &[Name],
    reasons: &[Reason],
) -> Result<(), AllocError>
    ensures { OnOk result (text.new.items
        ≡ text.old.items ++ reasons_if told locations.now reasons.now) }
{
    if told {
        put_reasons(alloc, text, locations, reasons)
    } else {
        Ok(())
    }
}

#[tactic(auto, unfolding(crate::specs::Findings::count_line))]
fn put_count(text: &mut Vec<u8>, word: &[u8], count: usize) -> Result<(), AllocError>
    ensures { OnOk result (text.new.items ≡ text.old.items ++ count_line word.now count) }
{
    put_bytes(text, word)?;
    put_decimal(text, count as u64)?;
    put_bytes(text, b"\n")
}

/// Appends what is found: how many executions are kept, with the events of the first, and how many
/// are forbidden, with the reasons where none is kept or where they are asked for. Errors: want of
/// memory.
#[tactic(auto, unfolding(crate::specs::Findings::findings_text))]
pub fn put_findings(
    alloc: Global,
    text: &mut Vec<u8>,
    asked: bool,
    locations: &[Name],
    findings: &Findings,
) -> Result<(), AllocError>
    ensures { OnOk result (text.new.items
        ≡ text.old.items ++ findings_text asked locations.now findings.now) }
{
    put_count(text, b"Kept ", findings.kept)?;
    put_events(text, telling(locations, true), &findings.shown)?;
    put_count(text, b"Forbidden ", findings.reasons.len())?;
    let told = asked || findings.kept == 0;
    put_reasons_if(alloc, text, told, locations, &findings.reasons)
}
