// The words of a plan: parts of its text, told apart and counted by line and word, and tables of names.
#![tactic(auto)]

pub mod cursor;
pub mod names;
pub mod signs;
pub mod tables;
pub mod tokens;
pub mod walk;
