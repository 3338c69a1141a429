// The plan of a tally: which fields a row and a base row have, and what the columns are.
#![tactic(auto)]

pub mod columns;
pub mod lines;
pub mod plan;
pub mod reading;
pub mod words_of_plan;
