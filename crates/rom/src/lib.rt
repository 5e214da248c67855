// The upper crate, which relies on the decoder's promise alone: the rows of an image, and the check of its map.
#![tactic(auto)]

pub use lines::{row, rows};
pub use map::map_check;
