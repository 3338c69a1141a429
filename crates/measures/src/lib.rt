// What is counted over result rows: row values, measures and their laws, the five kinds of measure,
// and the one that picks a kind at run time.
#![tactic(auto)]

pub mod adding;
pub mod answer;
mod bytes;
pub mod count;
pub mod extreme;
pub mod greatest;
pub mod least;
pub mod mean;
pub mod measure;
pub mod sum;
pub mod values;
