// Writing a hall file into a lent buffer.
#![tactic(auto)]

pub mod length;
mod put;
pub mod write;
