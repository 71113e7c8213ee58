//! Laws of the texts of tests: what is printed is read as the test that was printed, tokens and
//! gaps cover a text, and a refusal has the number of its part. `laws` has the statements; read
//! specs/Written.antt, Tokens.antt and Parts.antt.
#![tactic(auto)]

pub mod laws;
