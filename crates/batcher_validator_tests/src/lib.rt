//! The tests of voters and validators, apart from the others, which are proved sooner.
#![tactic(auto)]

#[cfg(test)]
mod validators;
#[cfg(test)]
mod voters;
#[cfg(test)]
mod writes;
