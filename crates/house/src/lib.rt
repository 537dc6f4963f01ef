// The clearing house: its calls and its questions.
#![tactic(auto)]

pub mod state;
pub mod token;
