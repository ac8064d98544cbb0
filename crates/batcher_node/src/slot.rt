//! A view's place in a node.

// A round of type `R`, and whether it was called since it was found to rest.
#[derive(Debug, Drop)]
pub(crate) struct Slot<R> {
    pub(crate) round: R,
    pub(crate) changed: bool,
}
