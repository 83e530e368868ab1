#![tactic(auto)]

mod digits;
pub mod entry;
pub mod line;
pub mod lines;
pub mod list;
