//! What holds of any run of events, over any texts of tests and models.

ghost use Rattle.memo_core.specs.Laws.{meaning};
ghost use Rattle.memo_core.specs.Work.{ReturnsLowerInRuns, WorkIsBounded, WorkUnsettlesNone};
ghost use Rattle.cells.specs.Cells.{cells};
ghost use Rattle.cells.specs.CellLaws.{RightIsFromScratch, SettledCellIsFromScratch, UnreachedCellStays, OnlyNeededIsGiven, NoneIsOutTwice, EditBoundsWork, QuietCellsAreSettled, ListsAreRuns, ListBoundsWork};

use crate::texts::CellTexts;

/// After any list of edits, claims, returns, losses, renewals and refused calls, in any order, a
/// cell that is settled carries what evaluating the present texts from nothing gives.
pub fn headline<T: CellTexts>()
    ensures { SettledCellIsFromScratch
        (meaning T.net T.is_valid T.since T.makes T.keeps T.edited T.last)
        (cells T.verdict_of T.outcome_in T.from_scratch T.reaches) }
{}

/// In a bench for which what a bench keeps at all times holds (`Bench::taken` says it), a cell that
/// is settled carries what evaluating the present texts from nothing gives. So this is known of a
/// bench behind a lock too, whatever came before.
pub fn right_benches<T: CellTexts>()
    ensures { RightIsFromScratch
        (meaning T.net T.is_valid T.since T.makes T.keeps T.edited T.last)
        (cells T.verdict_of T.outcome_in T.from_scratch T.reaches) }
{}

/// An edit that does not reach a settled cell leaves it settled with the same outcome.
pub fn untouched<T: CellTexts>()
    ensures { UnreachedCellStays (meaning T.net T.is_valid T.since T.makes T.keeps T.edited T.last)
        (cells T.verdict_of T.outcome_in T.from_scratch T.reaches) }
{}

/// Only what some cell needs is given out, and no two claims that are out are of one node with the
/// same inputs and stamps. An accepted return of a node with settled inputs lowers the number of
/// unsettled used nodes. Claims, returns, losses and refused calls unsettle no node, and of the
/// claims that such a list gives no more returns are accepted than it settles used nodes: after an
/// edit, no more than were open before it or stand on what it touches. Where no claim is given and
/// none is out, every cell is settled.
pub fn exact_work<T: CellTexts>()
    ensures needed { OnlyNeededIsGiven
        (meaning T.net T.is_valid T.since T.makes T.keeps T.edited T.last)
        (cells T.verdict_of T.outcome_in T.from_scratch T.reaches) }
    ensures apart { NoneIsOutTwice (meaning T.net T.is_valid T.since T.makes T.keeps T.edited
        T.last) }
    ensures lowers { ReturnsLowerInRuns (meaning T.net T.is_valid T.since T.makes T.keeps T.edited
        T.last) }
    ensures bounded { WorkIsBounded (meaning T.net T.is_valid T.since T.makes T.keeps T.edited
        T.last) }
    ensures kept { WorkUnsettlesNone (meaning T.net T.is_valid T.since T.makes T.keeps T.edited
        T.last) }
    ensures edited { EditBoundsWork (meaning T.net T.is_valid T.since T.makes T.keeps T.edited
        T.last) }
    ensures quiet { QuietCellsAreSettled
        (meaning T.net T.is_valid T.since T.makes T.keeps T.edited T.last)
        (cells T.verdict_of T.outcome_in T.from_scratch T.reaches) }
{
    memo_core::laws::exact_work::<T>();
}

/// What `run_events` does is such a run, so all of this holds of it. Of a list of claims, returns
/// and losses no more returns are accepted than it settles used nodes.
pub fn listed<T: CellTexts>()
    ensures runs { ListsAreRuns (meaning T.net T.is_valid T.since T.makes T.keeps T.edited T.last)
        T.refuses T.last }
    ensures bounded { ListBoundsWork
        (meaning T.net T.is_valid T.since T.makes T.keeps T.edited T.last) T.refuses T.last }
{
    memo_core::laws::exact_work::<T>();
}
