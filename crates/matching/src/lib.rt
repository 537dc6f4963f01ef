// The arithmetic of a matching, as pure functions over the rows of a house. Nothing here allocates,
// moves money or changes a row.
#![tactic(auto)]

pub mod appraisal;
pub mod book;
pub mod figures;
pub mod laws;
pub mod legs;
mod products;
pub mod proposals;
pub mod quotes;
pub mod rows;
pub mod search;
pub mod weights;
pub mod worked;
