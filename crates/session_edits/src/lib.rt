//! The edits of a session: which edit a request asks for, and the answer to it. Read specs/Answer
//! first, then Requests, Faults and Edits: `IsEdited` says what is answered and which texts are
//! held then.
#![tactic(auto)]

mod answer;
mod edit;
mod refusal;
mod request;

pub use answer::Answer;
pub use edit::answer_edit;
pub use refusal::{put_refusal, refused_by, refused_edit};
pub use request::{Asked, Question, request_meaning};
