// What is shown of plans above their definitions.
#![tactic(auto)]

pub mod theorems;
