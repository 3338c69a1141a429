// Conditions on a row and a base row: what they say, how they are evaluated, and how they are read.
#![tactic(auto)]

pub mod condition;
pub mod keys;
pub mod meaning;
pub mod reader;
pub mod reading;
pub mod steps;
pub mod theorems;
pub mod wrong;
