//! Who is told of an edit before it is put in place.

ghost use Rattle.std.specs.Prelude.{ℕ, MatchBool};

use memo_core::texts::Texts;
use std::alloc::Global;

/// Is told of each edit before it is put in place, and may hold it back.
pub trait Witness<T: Texts> {
    /// It may be told of a prepared edit on these texts, under this number.
    ghost may_tell: { Self → T → T.Prepared → ℕ → Type 0 };

    /// What being told makes of it.
    ghost told: { Self → T → T.Prepared → ℕ → Self → Type 0 };

    /// What holding an edit back makes of it.
    ghost held: { Self → Self → Type 0 };

    /// Tells it of a prepared edit. False where it holds the edit back.
    fn tell(&mut self, alloc: Global, texts: &T, prepared: &T::Prepared, number: u64) -> bool
        requires { may_tell self.old texts.now prepared.now number }
        ensures { MatchBool result (told self.old texts.now prepared.now number self.new)
            (held self.old self.new) };
}

/// Holds no edit back.
#[derive(Drop)]
pub(crate) struct Nobody;

impl<T: Texts> Witness<T> for Nobody {
    ghost may_tell = { λ old texts prepared number. Unit {0} };

    ghost told = { λ old texts prepared number new. Unit {0} };

    ghost held = { λ old new. ⊥ };

    fn tell(&mut self, _alloc: Global, _texts: &T, _prepared: &T::Prepared, _number: u64) -> bool {
        true
    }
}
