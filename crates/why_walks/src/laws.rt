//! Laws of walks.

ghost use Rattle.std.specs.Prelude.{List};
ghost use Rattle.binding_graph.specs.declared.resolved.Code.{Code};
ghost use Rattle.candidate_spaces.specs.declared.candidate.Space.{Space};
ghost use Rattle.why_walks.specs.declared.run.Link.{Link};
ghost use Rattle.why_walks.specs.declared.value.FactorValues.{FactorValues};
ghost use Rattle.why_walks.specs.Found.{HasOneFirstWalk, HasWalks};

/// Wherever an expression relates two events there is a walk through its factors, from the one to
/// the other.
pub fn pairs_have_walks()
    ensures { (code : Code) (space : Space) (factors : List FactorValues)
        → HasWalks code space factors }
{}

/// Of the walks through links from an event to another at most one is the first.
pub fn first_walk_is_one()
    ensures { (links : List Link) → HasOneFirstWalk links }
{}
