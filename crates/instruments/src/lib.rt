// What a contract on the index is: the questions that every kind of contract answers, the rules that
// it keeps, and the kinds that are built here. Nothing in this crate allocates or can fail.
#![tactic(auto)]

pub mod bounds;
pub mod choices;
pub mod faults;
pub mod kind;
pub mod options;
pub mod pairs;
pub mod spreads;
pub mod worked;
