// The functions of `exports` by their names in C: a slice is a pointer and a length.
#![tactic(auto)]

pub mod maps;
pub mod record;
pub mod rows;
pub mod texts;
