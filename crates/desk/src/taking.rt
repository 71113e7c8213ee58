//! What a return settles, and which cells it leaves to be posted.

ghost use Rattle.std.specs.Prelude.{◌≡◌, false, fold, IfSome};
ghost use Rattle.memo_core.specs.Laws.{meaning};
ghost use Rattle.memo_core.specs.Run.{Returned, Step};
ghost use Rattle.cells.specs.Cells.{cells as cells_of};
ghost use Rattle.desk_ledger.specs.Boards.{ArePosted, ArePostedBut};

use cells::bench::Bench;
use cells::job::Done;
use desk_history::Naming;
use desk_ledger::{BoardTexts, Ledger};
use memo_core::claims::Finish;
use memo_core::keys::Node;
use value_store::StoreName;

/// Takes a return, and says above which node settled cells may be left to be posted: none is said
/// where some were owed before.
pub(crate) fn take<J: Naming, K: StoreName, X: BoardTexts>(
    bench: &mut Bench<K, X>,
    ledger: &Ledger<J, X>,
    owed: bool,
    done: Done<K, X>,
) -> (Finish, Option<Node>)
    requires posted { owed ≡ false
        → ArePosted X.net (cells_of X.verdict_of X.outcome_in X.from_scratch X.reaches) bench.old
        (X.cells (fold X.after X.none ledger.now.all)) }
    ensures step { Step (meaning X.net X.is_valid X.since X.makes X.keeps X.edited X.last) bench.old
        (Returned done result.0) bench.new }
    ensures rest { IfSome result.1 (λ node. ArePostedBut X.net
        (cells_of X.verdict_of X.outcome_in X.from_scratch X.reaches) bench.new node
        (X.cells (fold X.after X.none ledger.now.all))) }
{
    let node = done.node();
    let finish = bench.finish(done);
    if owed {
        return (finish, None);
    }
    (finish, Some(node))
}
