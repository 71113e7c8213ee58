//! Events on lines.

ghost use Rattle.std.specs.Prelude.{◌≡◌, ◌++◌, OnOk};
ghost use Rattle.std.specs.List.{flat_map};
ghost use Rattle.outcome_states.specs.Final.{value_shown};
ghost use Rattle.outcome_states.specs.Text.{value_text};
ghost use Rattle.why_text.specs.Events.{lettered, event_name, value_told, access_text, fence_told, action_text, thread_text, plain_access, indexed_access, instruction_text, instruction_told, event_line};

use candidates::{Action, Event};
use litmus_printing::{fence_name, put_value};
use ppc_semantics::{Instruction, Value as RunValue};
use std::alloc::AllocError;
use text_values::{Name, Value, put_bytes, put_decimal};
use verdict::put_location;

/// An event as it is told.
#[derive(Clone, Copy)]
pub struct ToldEvent {
    /// Its number.
    pub number: usize,
    /// What it does, and its thread.
    pub event: Event,
    /// The instruction that it comes from, where it has one.
    pub instruction: Option<Instruction>,
}

/// How events are told.
#[derive(Clone, Copy)]
pub struct Telling<'a> {
    /// Whether values are told.
    pub shows: bool,
    /// The names of the test's locations, in their order.
    pub locations: &'a [Name],
    /// How many of the first events are initial stores.
    pub initial_count: usize,
}

fn put_lettered(text: &mut Vec<u8>, n: usize) -> Result<(), AllocError>
    ensures { OnOk result (text.new.items ≡ text.old.items ++ lettered n) }
{
    text.push(b'a' + (n % 26) as u8)?;
    if n < 26 {
        Ok(())
    } else {
        put_decimal(text, (n / 26) as u64)
    }
}

/// Appends the name of an event: the initial stores, which are the first, are `I0` and so on, the
/// others have small letters. Errors: want of memory.
#[tactic(auto, unfolding(crate::specs::Events::event_name))]
pub fn put_name(text: &mut Vec<u8>, initial_count: usize, n: usize) -> Result<(), AllocError>
    ensures { OnOk result (text.new.items ≡ text.old.items ++ event_name initial_count n) }
{
    if n < initial_count {
        put_bytes(text, b"I")?;
        put_decimal(text, n as u64)
    } else {
        put_lettered(text, n - initial_count)
    }
}

fn put_run_value(text: &mut Vec<u8>, locations: &[Name], value: RunValue) -> Result<(), AllocError>
    ensures { OnOk result (text.new.items
        ≡ text.old.items ++ value_text locations.now (value_shown value)) }
{
    match value {
        RunValue::Number(number) => put_value(text, &Value::Number(number.cast_signed())),
        RunValue::Address(location) => put_location(text, locations, location),
        RunValue::NoValue => Ok(()),
    }
}

#[tactic(auto, unfolding(crate::specs::Events::value_told))]
fn put_value_told(
    text: &mut Vec<u8>,
    telling: Telling<'_>,
    value: RunValue,
) -> Result<(), AllocError>
    ensures { OnOk result (text.new.items
        ≡ text.old.items ++ value_told telling.entry.shows telling.entry.locations.now value) }
{
    if telling.shows {
        put_bytes(text, b"=")?;
        put_run_value(text, telling.locations, value)
    } else {
        Ok(())
    }
}

#[tactic(auto, unfolding(crate::specs::Events::access_text))]
fn put_access(
    text: &mut Vec<u8>,
    letter: &[u8],
    telling: Telling<'_>,
    location: usize,
    value: RunValue,
) -> Result<(), AllocError>
    ensures { OnOk result (text.new.items
        ≡ text.old.items
        ++ access_text letter.now telling.entry.shows telling.entry.locations.now location
        value) }
{
    put_bytes(text, letter)?;
    put_bytes(text, b"[")?;
    put_location(text, telling.locations, location)?;
    put_bytes(text, b"]")?;
    put_value_told(text, telling, value)
}

#[tactic(auto, unfolding(crate::specs::Events::fence_told))]
fn put_fence(text: &mut Vec<u8>, name: &[u8]) -> Result<(), AllocError>
    ensures { OnOk result (text.new.items ≡ text.old.items ++ fence_told name.now) }
{
    put_bytes(text, b"F[")?;
    put_bytes(text, name)?;
    put_bytes(text, b"]")
}

/// Appends what an event does. Errors: want of memory.
#[tactic(auto, unfolding(crate::specs::Events::action_text))]
pub fn put_action(
    text: &mut Vec<u8>,
    telling: Telling<'_>,
    action: Action,
) -> Result<(), AllocError>
    ensures { OnOk result (text.new.items
        ≡ text.old.items
        ++ action_text telling.entry.shows telling.entry.locations.now action) }
{
    match action {
        Action::Load { location, value } => put_access(text, b"R", telling, location, value),
        Action::Store { location, value } => put_access(text, b"W", telling, location, value),
        Action::Fence(fence) => put_fence(text, fence_name(fence)),
    }
}

#[tactic(auto, unfolding(crate::specs::Events::thread_text))]
fn put_thread(text: &mut Vec<u8>, thread: Option<usize>) -> Result<(), AllocError>
    ensures { OnOk result (text.new.items ≡ text.old.items ++ thread_text thread) }
{
    match thread {
        None => put_bytes(text, b"init"),
        Some(thread) => {
            put_bytes(text, b"P")?;
            put_decimal(text, thread as u64)
        }
    }
}

#[tactic(auto, unfolding(crate::specs::Events::plain_access))]
fn put_plain(text: &mut Vec<u8>, word: &[u8], first: u8, base: u8) -> Result<(), AllocError>
    ensures { OnOk result (text.new.items ≡ text.old.items ++ plain_access word.now first base) }
{
    put_bytes(text, word)?;
    put_bytes(text, b" r")?;
    put_decimal(text, u64::from(first))?;
    put_bytes(text, b",0(r")?;
    put_decimal(text, u64::from(base))?;
    put_bytes(text, b")")
}

#[tactic(auto, unfolding(crate::specs::Events::indexed_access))]
fn put_indexed(
    text: &mut Vec<u8>,
    word: &[u8],
    first: u8,
    base: u8,
    index: u8,
) -> Result<(), AllocError>
    ensures { OnOk result (text.new.items
        ≡ text.old.items ++ indexed_access word.now first base index) }
{
    put_bytes(text, word)?;
    put_bytes(text, b" r")?;
    put_decimal(text, u64::from(first))?;
    put_bytes(text, b",r")?;
    put_decimal(text, u64::from(base))?;
    put_bytes(text, b",r")?;
    put_decimal(text, u64::from(index))
}

/// Appends the instruction of an event. Errors: want of memory.
#[tactic(auto, unfolding(crate::specs::Events::instruction_text))]
pub fn put_instruction(text: &mut Vec<u8>, instruction: Instruction) -> Result<(), AllocError>
    ensures { OnOk result (text.new.items ≡ text.old.items ++ instruction_text instruction) }
{
    match instruction {
        Instruction::Load(target, base) => put_plain(text, b"lwz", target, base),
        Instruction::LoadIndexed(target, base, index) => {
            put_indexed(text, b"lwzx", target, base, index)
        }
        Instruction::Store(source, base) => put_plain(text, b"stw", source, base),
        Instruction::StoreIndexed(source, base, index) => {
            put_indexed(text, b"stwx", source, base, index)
        }
        Instruction::Fence(fence) => put_bytes(text, fence_name(fence)),
        _ => Ok(()),
    }
}

#[tactic(auto, unfolding(crate::specs::Events::instruction_told))]
fn put_origin(text: &mut Vec<u8>, instruction: Option<Instruction>) -> Result<(), AllocError>
    ensures { OnOk result (text.new.items ≡ text.old.items ++ instruction_told instruction) }
{
    match instruction {
        None => Ok(()),
        Some(instruction) => {
            put_bytes(text, b"  ")?;
            put_instruction(text, instruction)
        }
    }
}

/// Appends the line of an event. Errors: want of memory.
#[tactic(auto, unfolding(crate::specs::Events::event_line))]
pub fn put_event(
    text: &mut Vec<u8>,
    telling: Telling<'_>,
    event: ToldEvent,
) -> Result<(), AllocError>
    ensures { OnOk result (text.new.items
        ≡ text.old.items
        ++ event_line telling.entry.shows telling.entry.locations.now
        telling.entry.initial_count event) }
{
    put_bytes(text, b"  ")?;
    put_name(text, telling.initial_count, event.number)?;
    put_bytes(text, b": ")?;
    put_action(text, telling, event.event.action)?;
    put_bytes(text, b"  ")?;
    put_thread(text, event.event.thread)?;
    put_origin(text, event.instruction)?;
    put_bytes(text, b"\n")
}

/// Appends the lines of events. Errors: want of memory.
pub fn put_events(
    text: &mut Vec<u8>,
    telling: Telling<'_>,
    events: &[ToldEvent],
) -> Result<(), AllocError>
    ensures { OnOk result (text.new.items
        ≡ text.old.items
        ++ flat_map
        (event_line telling.entry.shows telling.entry.locations.now
        telling.entry.initial_count) events.now) }
{
    for event in events {
        put_event(text, telling, *event)?;
    }
    Ok(())
}
