// The tests of a house. They stand in a crate of their own, since a crate with tests is proved twice.
#![tactic(auto)]

#[cfg(test)]
mod asking;
#[cfg(test)]
mod cancelling;
#[cfg(test)]
mod clearing;
#[cfg(test)]
mod closing;
#[cfg(test)]
mod cover;
#[cfg(test)]
mod entering;
#[cfg(test)]
mod filling;
#[cfg(test)]
mod money;
#[cfg(test)]
mod numbers;
#[cfg(test)]
mod offers;
#[cfg(test)]
mod pairs;
#[cfg(test)]
mod quoting;
#[cfg(test)]
mod reporting;
#[cfg(test)]
mod setup;
