// The worked trials of a whole house.
#![tactic(auto)]

pub mod worked;
