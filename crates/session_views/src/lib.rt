//! A session's answers from a board: who makes edits knows which texts a board shows that counts no
//! more edits than its own, and answers questions about them from its settled cells. Read
//! specs/Knowing first, then Shown and Asked; `laws` has the laws.
#![tactic(auto)]

mod answer;
mod find;
pub mod laws;
mod progress;
mod rows;

pub use answer::answer_from_board;
pub use progress::board_progress;
