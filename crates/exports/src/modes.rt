// The number of a mode other than 0, the Rust's, and 1, the chip's.
pub(crate) const BAD_MODE: u8 = 35;
