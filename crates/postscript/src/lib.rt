#![tactic(auto)]

pub mod array;
mod read;
pub mod scanner;

pub use objects::{decode, error, kind, name, object, part, string, typed};
