#![tactic(auto)]

pub mod call;
pub mod turn;
