// The kind of measure that is picked at run time, and the plain aggregates that the five kinds answer.
#![tactic(auto)]

pub mod any;
pub mod over;
