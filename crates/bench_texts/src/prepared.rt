//! Edits that were prepared.

ghost use Rattle.std.specs.Prelude.{◌≡◌, option_map};
ghost use Rattle.bench_texts.specs.Replacements.{printed_by};

use crate::print::print_put;
use crate::replacement::Replacement;
use std::alloc::{AllocError, Global};
use std::mem::drop;

/// An edit that was prepared: what it puts in the place of what, and the printed items of the model
/// that is put.
#[derive(Drop)]
pub struct Prepared {
    replacement: Replacement,
    whole: bool,
    printed: Option<Vec<u8>>,
    ghost printed_so: { option_map (λ v. v.items) printed ≡ printed_by replacement },
}

impl Prepared {
    ghost use Rattle.std.specs.Prelude.{IfOk};

    /// What is put, with its items printed where it is a model. Errors: want of memory.
    pub(crate) fn new(
        alloc: Global,
        replacement: Replacement,
        whole: bool,
    ) -> Result<Prepared, AllocError>
        ensures replacement { IfOk result (λ p. p.replacement ≡ replacement) }
        ensures whole { IfOk result (λ p. p.whole ≡ whole) }
    {
        match print_put(alloc, &replacement) {
            Ok(printed) => Ok(Prepared {
                replacement,
                whole,
                printed,
            }),
            Err(error) => {
                drop(replacement);
                Err(error)
            }
        }
    }

    /// What the edit puts in the place of what.
    pub fn replacement(&self) -> &Replacement
        ensures { result.now ≡ self.now.replacement }
    {
        &self.replacement
    }

    /// Whether the edit puts or drops its test or its model as a whole, where else it changes a
    /// part of it.
    pub fn is_whole(&self) -> bool
        ensures { result ≡ self.now.whole }
    {
        self.whole
    }

    /// The printed items of the model that the edit puts, or none where it puts none.
    pub fn printed(&self) -> Option<&[u8]>
        ensures { option_map (λ b. b.now) result ≡ printed_by self.now.replacement }
    {
        match &self.printed {
            Some(printed) => Some(printed),
            None => None,
        }
    }

    // What is put.
    pub(crate) fn into_replacement(self) -> Replacement
        ensures { result ≡ self.replacement }
    {
        self.replacement
    }
}
