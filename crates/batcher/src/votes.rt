//! How a round keeps its votes, and what comes of recording one.

pub use batcher_votes::votes::{Mode, Outcome};
