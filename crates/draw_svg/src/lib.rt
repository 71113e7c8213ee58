//! A picture as the bytes of one `<svg>` element. Read specs/Svg first: the bytes, from the layout
//! of draw_layout. Other crates cite `put_svg`.
#![tactic(auto)]

mod bytes;
mod element;
mod path;

pub use element::put_svg;
