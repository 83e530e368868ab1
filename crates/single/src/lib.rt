#![tactic(auto)]

pub mod nearest;
mod rounding;
pub mod value;
mod worth;
