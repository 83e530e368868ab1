#![tactic(auto)]

pub mod array;
pub mod decode;
pub mod error;
pub mod kind;
pub mod name;
pub mod object;
pub mod part;
pub mod string;
pub mod typed;
