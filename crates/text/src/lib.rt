// What all readers of text share: the refusals and the numbers that a text writes.
#![tactic(auto)]

pub mod numbers;
pub mod refusal;
