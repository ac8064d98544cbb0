//! What a validator does with its journal, and what happens to it.

use batcher_bytes::{Codec, Log};
use batcher_journal::{Journal, Owner};
use batcher_types::messages::{Digest, Subject, Vote};
use batcher_types::positions::Round;

/// What a validator does with its journal, or what happens to it. Where memory is out, a deed isn't
/// done.
#[derive(Clone, Copy)]
pub enum Deed<'a, G, D> {
    /// It asks about a subject. A vote that is known is handed out, to be sent again.
    Ask(Subject<D>),
    /// It writes votes, which are handed out where that went well.
    Write(&'a [Vote<G, D>]),
    /// It keeps a certificate.
    Keep(Round, &'a [u8]),
    /// It raises the floor.
    Raise(Round, &'a [u8]),
    /// It begins an epoch.
    BeginEpoch(Owner<'a>, Round, &'a [u8]),
    /// The power goes and comes back, and the journal is opened as this owner's.
    Restart(Owner<'a>),
}

/// Where a journal is: open, or in its log.
pub enum Place<G: Codec, D: Digest + Codec, L: Log> {
    Open(Journal<G, D, L>),
    Shut(L),
}

/// What came of a life.
pub struct Lived<G, D, L> {
    /// Each vote that was handed out to be sent, in this order.
    pub handed: Vec<Vote<G, D>>,
    pub log: L,
}
