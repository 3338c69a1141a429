// Cells: whose group, how many rows, which value; the places that hold them. Their order, what a list of
// cells stands for, and the laws of contributions.
#![tactic(auto)]

pub mod cell;
pub mod id;
pub mod laws;
pub mod place;
