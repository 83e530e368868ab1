#![tactic(auto)]

pub mod array;
pub mod gap;
pub mod open;
pub mod string;
