//! Texts of anyone as parts of other texts, from which they are read back.
//!
//! - Pages: read specs/Escaped.antt first (how a text of anyone stands in a page), then
//!   specs/Elements and specs/Balanced (tags that close in order). `html_laws` has the statements:
//!   no text of anyone becomes markup, and elements are balanced. Other crates cite
//!   proofs/Balancing.antt.
//! - Strings and numbers of JSON: read specs/Strings.antt first (the bytes), then specs/Reading
//!   (what a string says). `json_laws` has the statements: what is written is read back, and all
//!   of it is printable ASCII.
//! - Lines of fields with a tab between two of them: read specs/Fields.antt (how a field is
//!   written, and a reader of such lines). `tab_laws` has the statements: lines are read back,
//!   field by field.
#![tactic(auto)]

mod element;
mod escape;
mod field;
pub mod html_laws;
pub mod json_laws;
mod number;
mod string;
pub mod tab_laws;

pub use element::{Attribute, put_attribute, put_close, put_element, put_open};
pub use escape::put_escaped;
pub use field::put_field;
pub use number::put_number;
pub use string::put_string;
