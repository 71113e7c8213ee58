//! Laws of the definitions.

ghost use Rattle.std.specs.Prelude.{List, ℕ, take};
ghost use Rattle.command_answers.specs.Answer.{AreAnsweredAlike};

/// The first 65,537 bytes of two texts decide what is said of the texts.
pub fn prefixes_decide()
    ensures { (model test : List ℕ)
        → AreAnsweredAlike (take 65537 model) (take 65537 test) model test }
{}
