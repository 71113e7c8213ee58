//! Candidates of `candidates`: how many a test has, and each of them.

use crate::semantics::environments::put_name;
use crate::semantics::put_item;
use base_env::base;
use candidates::{Combination, Execution, SpaceFault, parts, row_count, rows_at, space};
use litmus_ppc::Test;
use std::alloc::{AllocError, Global};
use text_values::{put_between, put_bytes, put_decimal};

/// Appends the refusal of a test.
fn put_fault(answer: &mut Vec<u8>, fault: SpaceFault) -> Result<(), AllocError> {
    match fault {
        SpaceFault::Refused(refusal) => {
            put_bytes(answer, b"refused E")?;
            put_decimal(answer, u64::from(refusal.number()))
        }
        SpaceFault::OutOfMemory(error) => Err(error),
    }
}

/// Appends how many candidates a test has, or its refusal.
pub fn put_count(alloc: Global, answer: &mut Vec<u8>, test: &Test) -> Result<(), AllocError> {
    match space(alloc, test) {
        Ok(space) => put_decimal(answer, space.len() as u64),
        Err(fault) => put_fault(answer, fault),
    }
}

/// Appends how many candidates a test has, and how many rows the stores of each combination, or its
/// refusal.
pub fn put_parts(alloc: Global, answer: &mut Vec<u8>, test: &Test) -> Result<(), AllocError> {
    match parts(alloc, test) {
        Ok(parts) => {
            put_decimal(answer, parts.count as u64)?;
            put_bytes(answer, b" candidates; rows ")?;
            for (index, combination) in parts.combinations.iter().enumerate() {
                put_item(
                    answer,
                    index,
                    row_count(&combination.events, parts.location_count),
                )?;
            }
            Ok(())
        }
        Err(fault) => put_fault(answer, fault),
    }
}

fn put_indices(answer: &mut Vec<u8>, list: &[u8]) -> Result<(), AllocError> {
    for (index, number) in list.iter().enumerate() {
        put_item(answer, index, usize::from(*number))?;
    }
    Ok(())
}

/// Appends the rows of the stores of a location.
fn put_rows(
    alloc: Global,
    answer: &mut Vec<u8>,
    combination: &Combination,
    location: usize,
) -> Result<(), AllocError> {
    let rows = rows_at(alloc, &combination.events, location.min(127))?;
    for index in 0..rows.len() {
        put_between(answer, b"; ", index)?;
        put_indices(answer, rows.order(index))?;
    }
    Ok(())
}

/// Appends the rows of the stores of a location in the first combination of a test.
pub fn put_first_rows(
    alloc: Global,
    answer: &mut Vec<u8>,
    test: &Test,
    location: usize,
) -> Result<(), AllocError> {
    match parts(alloc, test) {
        Ok(parts) => match parts.combinations.first() {
            Some(combination) => put_rows(alloc, answer, combination, location),
            None => put_bytes(answer, b"no combination"),
        },
        Err(fault) => put_fault(answer, fault),
    }
}

fn put_execution(answer: &mut Vec<u8>, execution: &Execution) -> Result<(), AllocError> {
    put_decimal(answer, execution.events.len() as u64)?;
    put_bytes(answer, b" events; sources ")?;
    put_indices(answer, &execution.reads_from)?;
    put_bytes(answer, b"; order ")?;
    put_indices(answer, &execution.coherence)
}

/// Appends a candidate of a test, or what a name means in it.
pub fn put_candidate(
    alloc: Global,
    answer: &mut Vec<u8>,
    test: &Test,
    name: &str,
    index: usize,
) -> Result<(), AllocError> {
    match space(alloc, test) {
        Ok(space) => match space.execution(alloc, index)? {
            Some(execution) => {
                if name == "execution" {
                    return put_execution(answer, &execution);
                }
                put_name(answer, &base(alloc, &execution)?, name)
            }
            None => put_bytes(answer, b"no candidate"),
        },
        Err(_) => put_bytes(answer, b"no candidates"),
    }
}
