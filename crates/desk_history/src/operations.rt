//! What a history asks of its operations.

ghost use Rattle.std.specs.Prelude.{◌≡◌, List, [], ◌∷◌, ◌++◌, MatchResult};

use std::alloc::{AllocError, Global};

/// Operations, which of them may follow which, and what they make of a board.
pub trait Operations {
    /// An operation.
    type Op: Drop;

    /// What readers see.
    type Board: Drop;

    /// Whether operations make a legal list.
    ghost is_legal: { List Self.Op → Type 0 };

    /// Whether an operation may come after these.
    ghost may_follow: { List Self.Op → Self.Op → Type 0 };

    /// A board that shows nothing.
    ghost none: { Self.Board };

    /// What an operation makes of a board.
    ghost after: { Self.Board → Self.Op → Self.Board };

    /// A board that shows nothing.
    fn blank(alloc: Global) -> Self::Board
        ensures { result ≡ none };

    /// Makes one change of a board. Errors: want of memory, and then the board is as it was.
    fn apply(alloc: Global, board: &mut Self::Board, op: &Self::Op) -> Result<(), AllocError>
        ensures { MatchResult result (λ _. board.new ≡ after board.old op.now)
            (λ _. board.new ≡ board.old) };

    /// No operations are a legal list.
    ghost legal_none: { is_legal [] };

    /// A legal list goes on with an operation that may come next.
    ghost legal_more: { (ops : List Self.Op) (op : Self.Op) → is_legal ops → may_follow ops op
        → is_legal (ops ++ op ∷ []) };
}
