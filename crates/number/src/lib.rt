#![tactic(auto)]

mod capped;
pub mod decimal;
pub mod machine;
mod mantissa;
mod state;
