//! Votes that wait for a certificate, and what a construction gives.

pub use batcher_votes::verifier::{Batch, LeaderFault, NextAttempt, Verifier};
