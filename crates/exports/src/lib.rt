// What a host calls: functions on numbers and byte slices, each slice a pointer and a length.
#![tactic(auto)]

pub mod maps;
mod modes;
pub mod record;
pub mod rows;
pub mod texts;
