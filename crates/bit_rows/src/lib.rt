//! Rows of bits, for up to 128 events: the operations on words, and on lanes of eight words. Read
//! specs/Relation first, what relations and sets are, then specs/Pairs: the pairs that each
//! operation of `bit_relations` makes.
#![tactic(auto)]

pub mod lanes;
mod word;
pub mod words;

pub use word::{
    both, either, has_event, in_high, in_low, left_alone, lowest_bits, union_where, with_bit,
};
pub use words::{MAX_EVENTS, end_of_high, is_diagonal_free};
