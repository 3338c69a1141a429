// The hall file: what is written for what a tally heard, the check that bytes are just so written, and the
// view of checked bytes.
#![tactic(auto)]

pub mod check;
mod columns;
pub mod compare;
mod groups;
pub mod head;
pub mod shape;
pub mod view;
