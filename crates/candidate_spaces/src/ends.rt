//! What the registers hold at the ends of runs.

ghost use Rattle.std.specs.Prelude.{◌≡◌, IfOk};
ghost use Rattle.candidate_spaces.specs.Space.{end_at, registers_at};

use ppc_semantics::Value;
use std::alloc::{AllocError, Global};

/// What the registers hold at the end of the run at this index; no values where there is none.
pub fn registers_of(ends: &[[Value; 32]], run: usize) -> [Value; 32]
    ensures { result ≡ end_at ends.now run }
{
    match ends.get(run) {
        Some(registers) => *registers,
        None => [Value::NoValue; 32],
    }
}

/// What the registers of each thread hold at the end of its run.
pub fn final_registers(
    alloc: Global,
    registers: &[Vec<[Value; 32]>],
    runs: &[usize],
) -> Result<Vec<[Value; 32]>, AllocError>
    ensures { IfOk result (λ v. v.items ≡ registers_at registers.now runs.now) }
{
    let mut found = Vec::with_capacity(alloc, runs.len())?;
    for thread in 0..runs.len().min(registers.len()) {
        found.push(registers_of(&registers[thread], runs[thread]))?;
    }
    Ok(found)
}
