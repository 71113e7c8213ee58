//! Laws of the texts of models: what is printed is read as the model that was printed, and tokens
//! and gaps cover a text. `laws` has the statements; read specs/Written.antt and specs/Tokens.antt.
#![tactic(auto)]

pub mod laws;
