//! The bench of tests and models as a user of the library takes it: `LiveBench` with its edits,
//! claims, returns and cells, and the laws of any list of events on it. Read `specs/Live` first,
//! after `Cells` and `CellLaws` of `cells/specs` and `StampedCells` of `bench_instance/specs`, and
//! then `There` (which cells there are), `Stamps`, `Jobs` (how many jobs are given), `Unreached`
//! (edits that need no job), `OnlyReached` (which jobs other edits give), `UsedOnce` (what is
//! counted there), `Refusals`, `OutputNames` and `ToldOutputs` (what the numbers of a return tell),
//! `Openings` (which cells of a board an edit opens), `Locked` and `Reached` (a bench behind a
//! lock).
#![tactic(auto)]

pub mod laws;

use bench_instance::StampedTexts;
use cells::bench::Bench;

/// A bench of litmus tests under models, whose store has the name `K`.
pub type LiveBench<K> = Bench<K, StampedTexts>;
