//! The rows of the benchmark: a scheme whose signatures cost little, and the calls of each row.
#![tactic(auto)]

pub mod plain;
pub mod plan;
pub mod rows;
