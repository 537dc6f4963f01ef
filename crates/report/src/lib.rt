// The text of a clearing's report, written onto a page of bytes. Nothing here allocates.
#![tactic(auto)]

pub mod laws;
#[cfg(test)]
mod tests;
mod text;
pub mod writing;
