//! What holds of any list of events on the bench of tests and models, and of the boards that show
//! its cells.

ghost use Rattle.std.specs.Prelude.{◌≡◌, ℕ, List, ◌++◌};
ghost use Rattle.outcome_states.specs.declared.answer.Outcome.{Outcome};
ghost use Rattle.board.specs.declared.operation.BoardEdit.{BoardEdit};
ghost use Rattle.board.specs.declared.operation.BoardOp.{BoardOp};
ghost use Rattle.board.specs.Histories.{IsHistory};
ghost use Rattle.bench_instance.specs.declared.stamped_texts.StampedTexts.{StampedTexts as StampedRecord};
ghost use Rattle.bench_instance.specs.StampedTexts.{IsNodeThere, AreSoundTexts};
ghost use Rattle.bench_instance.specs.StampedCells.{cell_from_scratch};
ghost use Rattle.memo_core.specs.Work.{ReturnsLowerInRuns, WorkIsBounded, WorkUnsettlesNone, SettledIsDecided};
ghost use Rattle.memo_core.specs.Laws.{SettledIsSolved, MatchingIsSolved, ValuesStayPresent, GivenStaysPresent};
ghost use Rattle.cells.specs.CellLaws.{SettledCellIsFromScratch, UnreachedCellStays, OnlyNeededIsGiven, NoneIsOutTwice, EditBoundsWork, QuietCellsAreSettled, ListsAreRuns, ListBoundsWork};
ghost use Rattle.bench_laws.specs.Live.{live_meaning, live_cells, live_refusing, live_last};
ghost use Rattle.bench_laws.specs.Stamps.{HasLowStamps, ChangedOutputIsNewer};
ghost use Rattle.bench_laws.specs.There.{HoldsAfterEvents, HasJustItsCells, ShowsRight};
ghost use Rattle.bench_laws.specs.Jobs.{JobsAreAccepted, ClaimsStayOut, UnsettledIsGiven, GivenIsBounded, EditBoundsGiven};
ghost use Rattle.bench_laws.specs.JobLists.{ListBoundsGiven, ListAcceptsJobs};
ghost use Rattle.bench_laws.specs.ListRuns.{ListsAreTheirRuns};
ghost use Rattle.bench_laws.specs.Refusals.{RefusedChangesNothing, RefusedEditChangesNothing};
ghost use Rattle.bench_laws.specs.OutputNames.{OutputsHaveTheirNames, OthersHaveOneOutput};
ghost use Rattle.bench_laws.specs.ToldOutputs.{ReturnsTellOutputs, ReturnsNameOutputs};
ghost use Rattle.bench_laws.specs.Unreached.{UnreachedNeedsNoJob};
ghost use Rattle.bench_laws.specs.Locked.{HoldsOfRight, EditsKeepUnreached, GivesNeeded, HasNoneOutTwice, HasLowMemos, AcceptsJobs, BoundsGiven, GivesOnce, GivesReached, BoundsReached};
ghost use Rattle.bench_laws.specs.Reached.{HoldsOfReached, HasFewJobs};
ghost use Rattle.bench_laws.specs.OnlyReached.{OnlyReachedIsGiven, ReachedBoundsGiven};
ghost use Rattle.bench_laws.specs.UsedOnce.{ListsEachNodeOnce, HasEachNodeOnce};
ghost use Rattle.bench_laws.specs.Openings.{with_edit, KeepsUnreached, OpensReached, StaysSettled};

use bench_instance::StampedTexts;

/// After any list of edits, claims, returns (late and repeated ones too), losses, renewals and
/// refused calls, in any order, a cell that is settled carries what evaluating its present test
/// under its present model from nothing gives.
pub fn settled_cells_are_from_scratch()
    ensures { SettledCellIsFromScratch live_meaning live_cells }
{
    cells::laws::headline::<StampedTexts>();
}

/// An edit that leaves the slice of a settled cell as it is leaves the cell settled with the same
/// outcome.
pub fn unreached_cells_stay()
    ensures { UnreachedCellStays live_meaning live_cells }
{
    cells::laws::untouched::<StampedTexts>();
}

/// Only what some cell needs is given out, and no two claims that are out are of one node with the
/// same inputs and stamps. An accepted return of a node with settled inputs lowers the number of
/// unsettled used nodes. Claims, returns, losses and refused calls unsettle no node, and of the
/// claims that a list of them gives no more returns are accepted than it settles used nodes: after
/// an edit, no more than were open before it or stand on what it touches. It is decided which nodes
/// are settled, so the unsettled ones can be counted. Where no claim is given and none is out,
/// every cell is settled.
pub fn work_is_exact()
    ensures needed { OnlyNeededIsGiven live_meaning live_cells }
    ensures apart { NoneIsOutTwice live_meaning }
    ensures lowers { ReturnsLowerInRuns live_meaning }
    ensures bounded { WorkIsBounded live_meaning }
    ensures kept { WorkUnsettlesNone live_meaning }
    ensures edited { EditBoundsWork live_meaning }
    ensures decided { SettledIsDecided live_meaning }
    ensures quiet { QuietCellsAreSettled live_meaning live_cells }
{
    cells::laws::exact_work::<StampedTexts>();
    memo_core::laws::exact_work::<StampedTexts>();
}

/// After any list of events, a used node that is settled holds what is made of what its job is
/// given now and of the present values of its present inputs. So does each node whose memo's inputs
/// and stamps are the present ones. What a job was given, and the values that it holds, stay the
/// present ones as long as its inputs and stamps are the present ones, whatever happens between.
pub fn memos_are_right()
    ensures settled { SettledIsSolved live_meaning IsNodeThere }
    ensures matching { MatchingIsSolved live_meaning }
    ensures values { ValuesStayPresent live_meaning }
    ensures given { GivenStaysPresent live_meaning }
{
    memo_core::laws::headline::<StampedTexts>();
    memo_core::laws::honest::<StampedTexts>();
}

/// What `run_events` does is such a run, so all of this holds of it.
pub fn lists_are_runs()
    ensures runs { ListsAreRuns live_meaning live_refusing live_last }
    ensures bounded { ListBoundsWork live_meaning live_refusing live_last }
{
    cells::laws::listed::<StampedTexts>();
}

/// Its run is that of the list's own events: each has one reply, and by it is one event of the
/// bench, or none where a return is of no job or its job is refused.
pub fn lists_are_their_runs()
    ensures { ListsAreTheirRuns live_meaning live_refusing live_last }
{}

/// What evaluating a test under a model from nothing gives is one outcome: any two that satisfy its
/// definition are equal.
pub fn outcomes_are_one()
    ensures { (t : StampedRecord) (test model : List ℕ) (o p : Outcome)
        → cell_from_scratch t test model o → cell_from_scratch t test model p → o ≡ p }
{}

/// After any list of events no cell is shown of a test and a model just where the texts of the
/// bench lack one of the two. So an open cell has both, and an outcome is what evaluating the one
/// under the other from nothing gives.
pub fn cells_are_there()
    ensures there { HoldsAfterEvents HasJustItsCells }
    ensures right { HoldsAfterEvents ShowsRight }
{}

/// After any list of events no stamp that is stored is above the last number that was taken: of a
/// part, of a memo's inputs and outputs, or of the inputs of a claim that is out. An output that is
/// stored after an event was stored before it with this stamp and value, or its stamp is above all
/// numbers taken before: so an output that changes gets a stamp above every one stored.
pub fn stamps_are_low()
    ensures low { HoldsAfterEvents HasLowStamps }
    ensures newer { ChangedOutputIsNewer }
{}

/// A job that is claimed, run and returned is taken. After any list of events and a claim that
/// gives a job, while claims, returns, losses and refused calls come alone: the claim is out until
/// it is returned or lost, and a return of what its job makes is accepted, never stale or unknown.
/// The same holds in the lists that `run_events` takes.
pub fn jobs_are_accepted()
    ensures accepted { JobsAreAccepted live_meaning }
    ensures out { ClaimsStayOut live_meaning }
    ensures listed { ListAcceptsJobs live_meaning live_refusing live_last }
{}

/// No more jobs are given than there are nodes to settle. After any list of events a claim that is
/// given is of a used node that is not settled. A list of claims, returns, losses and refused calls
/// gives no more claims than used nodes are unsettled at its beginning, and one more for each claim
/// that is lost in it: after an edit, no more than used nodes were open before it or stand on what
/// it touches. The same holds of the lists that `run_events` takes, by their replies.
pub fn jobs_are_bounded()
    ensures unsettled { UnsettledIsGiven live_meaning }
    ensures bounded { GivenIsBounded live_meaning }
    ensures edited { EditBoundsGiven live_meaning }
    ensures listed { ListBoundsGiven live_meaning live_refusing live_last }
{}

/// After any list of events, where every node that cells use is settled and an edit leaves the
/// slice of each cell what it was, every node that cells use is settled after the edit, and no
/// claim is given.
pub fn unreached_edits_need_no_job()
    ensures { UnreachedNeedsNoJob }
{}

/// An edit gives work only for what it reaches. After any list of events and an edit, until the
/// next edit or renewal, no job is given of a node under a cell that was settled before the edit
/// and whose slice the edit leaves what it was. So no more jobs are given until then than used
/// nodes are under no such cell, and one more for each claim that is lost.
pub fn only_reached_is_given()
    ensures given { OnlyReachedIsGiven }
    ensures bounded { ReachedBoundsGiven }
{}

/// The list of the nodes that cells use has each of them once. So where a bound counts the members
/// of that list, it counts nodes.
pub fn used_nodes_are_listed_once()
    ensures sound { (t : StampedRecord) → AreSoundTexts t → ListsEachNodeOnce t }
    ensures after { HoldsAfterEvents HasEachNodeOnce }
{}

/// After any list of events, a call that is refused changes nothing: not the tests and the models
/// of the bench, not what is kept of computations, and each cell is shown as before. So an edit
/// that is refused changes nothing.
pub fn refused_edits_change_nothing()
    ensures calls { RefusedChangesNothing }
    ensures edits { RefusedEditChangesNothing }
{}

/// The numbers that a return tells are those of outputs of what its node is given. Of an item they
/// tell the names: of a group the name that it binds first is that of the output that comes first,
/// and so on. The only output of a check, of a flag, of a space or of a verdict goes by 0. So where
/// a return is of the node of an item that the texts hold, its job was given what that item does,
/// and each number that it tells is that of one of the item's outputs, by the name that the item
/// gives it.
pub fn outputs_have_their_names()
    ensures items { (t : StampedRecord) → AreSoundTexts t → OutputsHaveTheirNames t }
    ensures others { (t : StampedRecord) → OthersHaveOneOutput t }
    ensures told { ReturnsTellOutputs }
    ensures named { ReturnsNameOutputs }
{}

/// In a history of a running bench that ends in an edit, a cell whose slice is one before the edit
/// and after it is shown after it as before it, settled with the same outcome or open, unless the
/// edit puts or drops its test or its model as a whole. Each other cell that there is after the
/// edit is shown open. So a cell that is shown as settled stays so, with the same outcome, over any
/// operations as long as no edit reaches it.
pub fn boards_keep_unreached_cells()
    ensures kept { (ops : List BoardOp) (edit : BoardEdit) → IsHistory (with_edit ops edit)
        → KeepsUnreached ops edit }
    ensures opened { (ops : List BoardOp) (edit : BoardEdit) → IsHistory (with_edit ops edit)
        → OpensReached ops edit }
    ensures lasting { (ops more : List BoardOp) → IsHistory (ops ++ more) → StaysSettled ops more }
{}

/// Of a bench behind a lock, of which that is known which holds of a bench at all times
/// (`Bench::taken` and `DeskState::is_closed` say it), whatever came before: its cells are those of
/// its texts and show what is right for them. An edit that does not reach a settled cell leaves it
/// settled with the same outcome. No stamp that it keeps is above the last number taken.
pub fn locked_benches_are_right()
    ensures there { HoldsOfRight HasJustItsCells }
    ensures shown { HoldsOfRight ShowsRight }
    ensures kept { HoldsOfRight EditsKeepUnreached }
    ensures low { HoldsOfRight HasLowMemos }
{
    cells::laws::right_benches::<StampedTexts>();
}

/// Of such a bench, whatever came before: only what some cell needs and is not settled is given
/// out, and no two claims that are out are of one node with the same inputs and stamps. While no
/// edit and no renewal comes, a job that is out is accepted when it is returned, and no more jobs
/// are given than nodes are to be settled and claims are lost.
pub fn locked_work_is_exact()
    ensures needed { HoldsOfRight GivesNeeded }
    ensures apart { HoldsOfRight HasNoneOutTwice }
    ensures accepted { HoldsOfRight AcceptsJobs }
    ensures bounded { HoldsOfRight BoundsGiven }
{}

/// Of such a bench, whatever came before: while no edit and no renewal comes, no second job is
/// given of a node unless the claim of the first is lost. Nor is one given, after an edit, under a
/// cell that was settled and that the edit does not reach: so there are no more jobs than used
/// nodes under no such cell and lost claims.
pub fn locked_jobs_are_few()
    ensures once { HoldsOfRight GivesOnce }
    ensures reached { HoldsOfRight GivesReached }
    ensures bounded { HoldsOfRight BoundsReached }
{}

/// Some list of events leads from a new bench to the one behind a desk's lock, as
/// `DeskState::is_closed` says. So what holds after any list holds of it. No stamp that it stores
/// is above the last number taken, also of what claims record. Since the last edit or renewal it
/// gave no more jobs than nodes were to be settled then and claims were lost since.
pub fn desk_benches_are_reached()
    ensures low { HoldsOfReached HasLowStamps }
    ensures few { HoldsOfReached HasFewJobs }
{
    stamps_are_low();
}
