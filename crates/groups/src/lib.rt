// Groups in a given number of places, one place a group: found and joined in expected constant time
// while contributions come, sorted once when asked to, and linked anew when contributions come again.
#![tactic(auto)]

pub mod added;
mod chains;
pub mod held;
