//! Models in the cat language: their reader and their printer. Read cat_grammar/specs/Grammar.antt
//! first (the texts and their meanings), then Reads.antt there (what the reader answers).
#![tactic(auto)]

mod fault;
mod items;
mod lets;
mod parts;
mod read;

pub use cat_laws::laws;
pub use cat_printing::{print_item, print_model};
pub use cat_tokens::CatRule;
pub use fault::CatFault;
pub use read::{read_item, read_model};
pub use text_values::{
    Binding, Check, CheckWord, Expression, Infix, Item, ModelText, Name, PREDEFINED,
    PREDEFINED_COUNT, Postfix, Predefined, ShownExpression,
};
