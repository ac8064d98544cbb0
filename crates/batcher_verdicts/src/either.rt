//! One of two, by the sort of their scheme.

/// Of a scheme that waits for a quorum before it wants verdicts, or of one that wants each as votes
/// come.
#[derive(Drop)]
pub enum Either<A, B> {
    Batchable(A),
    OneByOne(B),
}
