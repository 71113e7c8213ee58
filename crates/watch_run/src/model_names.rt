//! The names of the models on the bench.

ghost use Rattle.std.specs.Prelude.{◌≡◌, ◌<◌, ◌^◌, ℕ, IfOk};
ghost use Rattle.watch_run.specs.Holding.{bench_model_name, bench_model_names};

use litmus_ppc::Name;
use std::alloc::{AllocError, Global};
use text_values::put_decimal;

/// The name on the bench of the model that the file of this index holds. Errors: out of memory.
pub fn bench_model_name(alloc: Global, index: usize) -> Result<Vec<u8>, AllocError>
    ensures name { IfOk result (λ v. v.items ≡ bench_model_name index) }
    // No other file has it.
    ensures apart { IfOk result (λ v. (other : ℕ) → other < 2 ^ 64
        → bench_model_name other ≡ v.items → other ≡ index) }
{
    let mut name = Vec::from_slice(alloc, b"model")?;
    put_decimal(&mut name, index as u64)?;
    Ok(name)
}

/// The names on the bench of the models of so many files, in their order. Errors: out of memory.
#[tactic(auto, using(crate::proofs::Names::names_more))]
pub fn bench_model_names(alloc: Global, count: usize) -> Result<Vec<Name>, AllocError>
    ensures { IfOk result (λ v. v.items ≡ bench_model_names count) }
{
    let mut names = Vec::with_capacity(alloc, count)?;
    for index in 0..count {
        let name = bench_model_name(alloc, index)?;
        names.push(Name::new(alloc, &name)?)?;
    }
    Ok(names)
}
