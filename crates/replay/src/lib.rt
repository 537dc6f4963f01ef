// Makes a list of calls on a new house, one by one, and records each answer.
#![tactic(auto)]

pub mod calls;
mod keeper;
mod making;
pub mod replaying;
