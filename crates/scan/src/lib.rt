// The direct scan: one pass over a list of rows, for one base row and one column.
#![tactic(auto)]

pub mod found;
pub mod scan;
