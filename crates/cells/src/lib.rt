//! A bench of cells: tests under models, over any texts that say which node is the verdict of a
//! cell. Read `specs/Cells` first (what a cell shows), then `specs/Events` (lists of events with
//! their replies) and `specs/CellLaws`. Others may cite `laws`: `headline`, `untouched`,
//! `exact_work` and `listed`.
#![tactic(auto)]

pub mod bench;
pub mod events;
pub mod job;
pub mod laws;
mod run;
pub mod shown;
mod stage;
pub mod texts;
