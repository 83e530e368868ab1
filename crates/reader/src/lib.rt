#![tactic(auto)]

pub mod class;
pub mod lent;
pub mod source;
