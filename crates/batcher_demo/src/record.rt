//! What a validator did and came to know, noted beside it by what it sends. It outlives restarts.

use crate::station::{AnyCertificate, AnyVote};
use crate::validator::{Message, VIEWS};
use batcher::messages::{Certificate, Kind, Proposal, Sha256Digest, Subject};
use std::alloc::{AllocError, Global};

/// What a validator did in a view, and what it knows of it.
#[derive(Clone, Copy, Debug)]
pub(crate) struct Seen {
    /// What it has notarized.
    pub(crate) voted: Option<Proposal<Sha256Digest>>,
    /// Whether it gave the view up.
    pub(crate) gave_up: bool,
    // What it voted to finalize.
    sealed: Option<Proposal<Sha256Digest>>,
    pub(crate) notarized: Option<Proposal<Sha256Digest>>,
    pub(crate) nullified: bool,
    pub(crate) finalized: Option<Proposal<Sha256Digest>>,
}

impl Seen {
    /// Whether there is a certificate of the kind.
    pub(crate) fn has(&self, kind: Kind) -> bool {
        match kind {
            Kind::Notarization => self.notarized.is_some(),
            Kind::Nullification => self.nullified,
            Kind::Finalization => self.finalized.is_some(),
        }
    }

    /// The proposal that is notarized or final.
    pub(crate) fn certified(&self) -> Option<Proposal<Sha256Digest>> {
        self.finalized.or(self.notarized)
    }

    // Whether a vote contradicts those that are noted.
    fn is_against(&self, subject: Subject<Sha256Digest>) -> bool {
        match subject {
            Subject::Notarize { proposal } => is_other(self.voted, proposal),
            Subject::Nullify { .. } => self.sealed.is_some(),
            Subject::Finalize { proposal } => self.gave_up || is_other(self.sealed, proposal),
        }
    }
}

const UNSEEN: Seen = Seen {
    voted: None,
    gave_up: false,
    sealed: None,
    notarized: None,
    nullified: false,
    finalized: None,
};

/// What a validator did and came to know, by views.
#[derive(Drop)]
pub(crate) struct Record {
    views: Vec<Seen>,
    /// Whether one of its votes contradicts another, or two certificates of a view name two
    /// proposals.
    pub(crate) is_torn: bool,
}

impl Record {
    pub(crate) fn new(alloc: Global) -> Result<Self, AllocError> {
        let mut views = Vec::new(alloc);
        for _ in 0..VIEWS + 2 {
            views.push(UNSEEN)?;
        }
        Ok(Record {
            views,
            is_torn: false,
        })
    }

    /// What there is of a view.
    pub(crate) fn seen(&self, view: u64) -> Seen {
        match self.views.get(view as usize) {
            Some(seen) => *seen,
            None => UNSEEN,
        }
    }

    /// The last view that is final, or 0.
    pub(crate) fn last_final(&self) -> u64 {
        let mut last = 0;
        for view in 1..=VIEWS {
            if self.seen(view).finalized.is_some() {
                last = view;
            }
        }
        last
    }

    /// It sends a message.
    pub(crate) fn note(&mut self, message: &Message) {
        match message {
            Message::Vote(vote) => self.note_vote(vote),
            Message::Certificate(certificate) => self.note_certificate(certificate),
        }
    }

    fn note_vote(&mut self, vote: &AnyVote) {
        let subject = vote.subject();
        let view = subject.round().view.0;
        let mut seen = self.seen(view);
        self.is_torn |= seen.is_against(subject);
        match subject {
            Subject::Notarize { proposal } => seen.voted = Some(proposal),
            Subject::Nullify { .. } => seen.gave_up = true,
            Subject::Finalize { proposal } => seen.sealed = Some(proposal),
        }
        self.put(view, seen);
    }

    fn note_certificate(&mut self, certificate: &AnyCertificate) {
        let view = certificate.round().view.0;
        let mut seen = self.seen(view);
        match certificate {
            Certificate::Notarization(made) => {
                self.is_torn |= is_other(seen.certified(), made.proposal);
                seen.notarized = Some(made.proposal);
            }
            Certificate::Nullification(_) => seen.nullified = true,
            Certificate::Finalization(made) => {
                self.is_torn |= is_other(seen.certified(), made.proposal);
                seen.finalized = Some(made.proposal);
            }
        }
        self.put(view, seen);
    }

    fn put(&mut self, view: u64, seen: Seen) {
        if let Some(place) = self.views.get_mut(view as usize) {
            *place = seen;
        }
    }
}

/// Whether there is another proposal than this one.
pub(crate) fn is_other(
    known: Option<Proposal<Sha256Digest>>,
    proposal: Proposal<Sha256Digest>,
) -> bool {
    match known {
        Some(known) => known != proposal,
        None => false,
    }
}
