//! Domains and runs of `ppc_semantics`, and the dependencies of `dataflow`.

use crate::semantics::put_pairs;
use dataflow::links;
use litmus_ppc::{Fence, Test};
use ppc_semantics::{Domain, DomainFault, Event, Run, Value, domain, runs};
use std::alloc::{AllocError, Global};
use text_values::{put_between, put_bytes, put_decimal};

/// Appends the number of a refusal.
fn put_fault(answer: &mut Vec<u8>, fault: DomainFault) -> Result<(), AllocError> {
    match fault {
        DomainFault::Refused(refusal) => {
            put_bytes(answer, b"refused E")?;
            put_decimal(answer, u64::from(refusal.number()))
        }
        DomainFault::OutOfMemory(error) => Err(error),
    }
}

/// Appends that a test has a domain, or its refusal.
pub fn put_domain(alloc: Global, answer: &mut Vec<u8>, test: &Test) -> Result<(), AllocError> {
    match domain(alloc, test) {
        Ok(_) => put_bytes(answer, b"domain"),
        Err(fault) => put_fault(answer, fault),
    }
}

fn put_value(answer: &mut Vec<u8>, value: Value) -> Result<(), AllocError> {
    match value {
        Value::Number(n) => put_decimal(answer, u64::from(n)),
        Value::Address(location) => {
            put_bytes(answer, b"location ")?;
            put_decimal(answer, location as u64)
        }
        Value::NoValue => put_bytes(answer, b"no value"),
    }
}

fn put_list(answer: &mut Vec<u8>, values: &[Value]) -> Result<(), AllocError> {
    for (index, value) in values.iter().enumerate() {
        put_between(answer, b" ", index)?;
        put_value(answer, *value)?;
    }
    Ok(())
}

/// Appends the values of a test's domain.
pub fn put_values(alloc: Global, answer: &mut Vec<u8>, test: &Test) -> Result<(), AllocError> {
    match domain(alloc, test) {
        Ok(domain) => put_list(answer, &domain.values),
        Err(fault) => put_fault(answer, fault),
    }
}

fn put_access(
    answer: &mut Vec<u8>,
    word: &[u8],
    address: Value,
    value: Value,
) -> Result<(), AllocError> {
    put_bytes(answer, word)?;
    put_value(answer, address)?;
    put_bytes(answer, b" = ")?;
    put_value(answer, value)
}

fn put_event(answer: &mut Vec<u8>, event: Event) -> Result<(), AllocError> {
    match event {
        Event::Load(address, value) => put_access(answer, b"load ", address, value),
        Event::Store(address, value) => put_access(answer, b"store ", address, value),
        Event::Fence(Fence::Sync) => put_bytes(answer, b"sync"),
        Event::Fence(Fence::LightweightSync) => put_bytes(answer, b"lwsync"),
        Event::Fence(Fence::Eieio) => put_bytes(answer, b"eieio"),
        Event::Fence(Fence::Isync) => put_bytes(answer, b"isync"),
    }
}

fn put_events(answer: &mut Vec<u8>, run: &Run) -> Result<(), AllocError> {
    put_bytes(answer, b"; events ")?;
    for (index, event) in run.events.iter().enumerate() {
        put_between(answer, b", ", index)?;
        put_event(answer, *event)?;
    }
    Ok(())
}

fn put_count(answer: &mut Vec<u8>, found: &[Run]) -> Result<(), AllocError> {
    put_bytes(answer, b"runs ")?;
    put_decimal(answer, found.len() as u64)
}

fn put_run(answer: &mut Vec<u8>, run: &Run) -> Result<(), AllocError> {
    put_bytes(answer, b"; loaded ")?;
    put_list(answer, &run.values)?;
    put_events(answer, run)?;
    put_bytes(answer, b"; ")?;
    put_decimal(answer, run.steps.len() as u64)?;
    put_bytes(answer, b" steps; r3 = ")?;
    put_value(answer, run.registers[3])?;
    let word = if run.faulted {
        b"; a fault".as_slice()
    } else {
        b"; no fault"
    };
    put_bytes(answer, word)
}

/// Appends how many runs the first thread of a test has over its domain, and the last of them.
pub fn put_last_run(alloc: Global, answer: &mut Vec<u8>, test: &Test) -> Result<(), AllocError> {
    match domain(alloc, test) {
        Ok(domain) => {
            let found = runs(alloc, test, 0, &domain)?;
            put_count(answer, &found)?;
            match found.last() {
                Some(run) => put_run(answer, run),
                None => Ok(()),
            }
        }
        Err(fault) => put_fault(answer, fault),
    }
}

fn put_named_pairs(
    answer: &mut Vec<u8>,
    name: &[u8],
    pairs: &[(usize, usize)],
) -> Result<(), AllocError> {
    put_bytes(answer, name)?;
    put_pairs(answer, pairs)
}

fn put_links_of(alloc: Global, answer: &mut Vec<u8>, run: &Run) -> Result<(), AllocError> {
    put_events(answer, run)?;
    let found = links(alloc, run)?;
    put_named_pairs(answer, b"; addr ", &found.addr_pairs)?;
    put_named_pairs(answer, b"; data ", &found.data_pairs)?;
    put_named_pairs(answer, b"; ctrl ", &found.ctrl_pairs)?;
    put_named_pairs(answer, b"; ctrlisync ", &found.ctrlisync_pairs)?;
    put_named_pairs(answer, b"; need ", &found.need_pairs)
}

/// Appends how many runs the first thread of a test has over the value 0, and the dependencies of
/// the first of them.
pub fn put_links(alloc: Global, answer: &mut Vec<u8>, test: &Test) -> Result<(), AllocError> {
    let mut values = Vec::new(alloc);
    values.push(Value::Number(0))?;
    let found = runs(alloc, test, 0, &Domain { values })?;
    put_count(answer, &found)?;
    match found.first() {
        Some(run) => put_links_of(alloc, answer, run),
        None => Ok(()),
    }
}
