// The state of a house and the work of its calls, below the tests that the house itself makes. The
// definitions of every call's answer, and of the promise over whole runs, stand in specs/.
#![tactic(auto)]

pub mod accounts;
pub mod answers;
pub mod changing;
pub mod clearing;
pub mod ledger;
pub mod members;
pub mod money;
pub mod offers;
pub mod opening;
pub mod payments;
pub mod refusals;
pub mod rowwork;
pub mod settling;
pub mod telling;
pub mod terms;
