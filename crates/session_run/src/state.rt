//! A session under way.

ghost use Rattle.std.specs.Prelude.{◌≡◌, []};
ghost use Rattle.bench_texts.specs.Held.{texts_of};
ghost use Rattle.bench_texts.specs.BenchTexts.{no_texts};
ghost use Rattle.session_views.specs.Knowing.{KnowsTexts};

use bench_instance::StampedTexts;
use bench_texts::Texts;
use desk::{Naming, Viewer};
use session_views::laws::nothing_is_known;
use std::alloc::Global;

/// A session's viewer, its own texts, and how many edits it made of them.
#[derive(Drop)]
pub(crate) struct Session<J: Naming> {
    pub(crate) viewer: Viewer<J, StampedTexts>,
    pub(crate) texts: Texts,
    pub(crate) made: u64,
}

impl<J: Naming> Session<J> {
    /// A session without texts, by a viewer that has seen nothing.
    #[tactic(auto, using(crate::proofs::Edits::knows_texts))]
    pub(crate) fn new(alloc: Global, viewer: Viewer<J, StampedTexts>) -> Session<J>
        requires { viewer ≡ [] }
        ensures texts { texts_of result.texts ≡ no_texts }
        ensures ready { KnowsTexts result.viewer result.made (texts_of result.texts) }
    {
        nothing_is_known();
        Session {
            viewer,
            texts: Texts::new(alloc),
            made: 0,
        }
    }
}
