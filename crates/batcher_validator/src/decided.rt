//! In which views a validator has voted to finalize or to nullify.

/// Views one behind the other: from the first one on, up to before the end.
#[derive(Clone, Copy)]
pub(crate) struct Decided {
    pub(crate) first: u64,
    pub(crate) end: u64,
}
