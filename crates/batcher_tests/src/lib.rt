//! The tests of the library, apart from the programs, so that they are proved beside them.
#![tactic(auto)]

#[cfg(test)]
mod lives;
#[cfg(test)]
mod nodes;
#[cfg(test)]
mod tests;
