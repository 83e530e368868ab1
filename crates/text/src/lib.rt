#![tactic(auto)]

mod decodable;
pub mod decode;
mod escape;
mod newline;
pub mod undecoded;
