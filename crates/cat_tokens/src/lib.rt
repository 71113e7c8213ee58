//! The tokens of models in the cat language. Read specs/Lexer.antt first: `lexing` is the list of
//! the tokens of a text with their offsets.
#![tactic(auto)]

mod lexer;
mod rule;
mod token;
mod words;

pub use lexer::{NextLexeme, first_lexeme};
pub use rule::CatRule;
pub use token::{Mark, Sign, Token};
