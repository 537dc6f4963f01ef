// The tests of the arithmetic of a matching. They stand in a crate of their own, since a crate with tests is
// proved twice.
#![tactic(auto)]

#[cfg(test)]
mod books;
#[cfg(test)]
mod full;
#[cfg(test)]
mod limits;
