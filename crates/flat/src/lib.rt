// A kind of contract that is declared in another crate than the built ones, to show that a kind may come
// from anywhere: it is proved to keep the rules, and stands in a pair beside an option. The tests of all kinds
// are here too, since a crate with tests is proved twice and this one is small.
#![tactic(auto)]

pub mod constant;
#[cfg(test)]
mod tests;
pub mod together;
