//! The stamps of parts after an edit.

ghost use Rattle.std.specs.Prelude.{◌≡◌};
ghost use Rattle.bench_parts.specs.Stamps.{raised};

/// The number of the edit where the stamp is above that of the last edit, and else the stamp.
pub fn raised(last: u64, number: u64, stamp: u64) -> u64
    ensures { result ≡ raised last number stamp }
{
    if last < stamp { number } else { stamp }
}
