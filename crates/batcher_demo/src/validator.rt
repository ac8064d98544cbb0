//! A validator: it hands in what comes, does what is to be done, and keeps time.

use crate::station::{AnyCertificate, AnyTask, AnyVote, Station, numbered};
use anyhow::{Result, bail};
use batcher::messages::{Kind, Proposal, Sha256Digest};
use batcher::positions::{Round, View};
use batcher::scheme::Name;
use batcher_node::{Cause, Receipt, Verdict};
use batcher_validator::Task;
use std::alloc::{AllocError, Global};

/// How many validators there are.
pub(crate) const VALIDATORS: u32 = 13;
/// How many views are played. Each validator leads one.
pub(crate) const VIEWS: u64 = 13;
// After so many steps in a view a validator gives it up, and after as many more it says again what
// it has to say.
const PATIENCE: usize = 8;
// Behind the last view it says so often what it knows, for who fell behind.
const REPEATS: u32 = 4;
// A message has fewer things to be done than this.
const MOST_TASKS: usize = 1000;

/// What a validator sends to all others.
#[derive(Drop)]
pub(crate) enum Message {
    Vote(AnyVote),
    Certificate(AnyCertificate),
}

/// The leader of a view.
pub(crate) fn leader_of(view: u64) -> u32 {
    (view % u64::from(VALIDATORS)) as u32
}

/// The proposal of a view's leader, by its letter.
pub(crate) fn proposed(view: u64, parent: u64, letter: u8) -> Proposal<Sha256Digest> {
    Proposal::new(
        numbered(view),
        numbered(parent).view,
        Sha256Digest([letter; 32]),
    )
}

/// The letter of a proposal.
pub(crate) fn letter_of(proposal: &Proposal<Sha256Digest>) -> u8 {
    proposal.payload.0[0]
}

/// That a validator has blocked a peer, by what it sent in a view.
#[derive(Clone, Copy, Debug)]
pub(crate) struct Block {
    pub(crate) peer: u32,
    pub(crate) view: u64,
    pub(crate) cause: Cause,
}

/// How many messages there were of each fate, and how many rounds were kept at once.
#[derive(Clone, Copy, Debug)]
pub(crate) struct Counts {
    pub(crate) votes: usize,
    pub(crate) added: usize,
    pub(crate) outside: usize,
    pub(crate) dropped: usize,
    pub(crate) rounds: usize,
}

pub(crate) const NOTHING: Counts = Counts {
    votes: 0,
    added: 0,
    outside: 0,
    dropped: 0,
    rounds: 0,
};

impl Counts {
    /// The sums of two, but the larger of the rounds.
    pub(crate) fn with(&self, other: &Counts) -> Counts {
        Counts {
            votes: self.votes.saturating_add(other.votes),
            added: self.added.saturating_add(other.added),
            outside: self.outside.saturating_add(other.outside),
            dropped: self.dropped.saturating_add(other.dropped),
            rounds: self.rounds.max(other.rounds),
        }
    }
}

#[derive(Drop)]
pub(crate) struct Validator {
    alloc: Global,
    pub(crate) station: Station,
    pub(crate) me: u32,
    pub(crate) current: u64,
    // When it entered that view, or last said again what it had said.
    since: usize,
    said: u32,
    // The view of what it took in last.
    heard: u64,
    pub(crate) blocks: Vec<Block>,
    /// When it was last stopped and started again, if it was.
    pub(crate) restarted: Option<usize>,
    pub(crate) counts: Counts,
    /// What it is about to send.
    pub(crate) outbox: Vec<Message>,
}

impl Validator {
    /// One that begins with the epoch.
    pub(crate) fn new(alloc: Global, station: Station, me: u32) -> Result<Self> {
        Validator::of(alloc, station, me, NOTHING, None, 0)
    }

    /// It is stopped, and started again by its disk alone. Only the counts are of all its lives.
    pub(crate) fn restarted(self, alloc: Global, now: usize) -> Result<Self> {
        let Validator {
            station,
            me,
            counts,
            ..
        } = self;
        Validator::of(alloc, station.restarted(alloc)?, me, counts, Some(now), now)
    }

    fn of(
        alloc: Global,
        station: Station,
        me: u32,
        counts: Counts,
        restarted: Option<usize>,
        now: usize,
    ) -> Result<Self> {
        let mut validator = Validator {
            alloc,
            station,
            me,
            current: 0,
            since: now,
            said: 0,
            heard: 0,
            blocks: Vec::new(alloc),
            restarted,
            counts,
            outbox: Vec::new(alloc),
        };
        match validator.settle(now) {
            Ok(()) => Ok(validator),
            Err(fault) => {
                drop(validator);
                Err(fault)
            }
        }
    }

    /// Whether it has blocked a peer.
    pub(crate) fn has_blocked(&self, peer: u32) -> bool {
        self.blocks.iter().any(|b| b.peer == peer)
    }

    /// Whether it has blocked anybody for what was sent in the view.
    pub(crate) fn has_blocked_in(&self, view: u64) -> bool {
        self.blocks.iter().any(|b| b.view == view)
    }

    /// Why it has blocked a peer, if it has.
    pub(crate) fn cause_against(&self, peer: u32) -> Option<Cause> {
        match self.blocks.iter().find(|b| b.peer == peer) {
            Some(block) => Some(block.cause),
            None => None,
        }
    }

    fn block(&mut self, peer: u32, cause: Cause) -> Result<(), AllocError> {
        let view = self.heard;
        self.blocks.push(Block { peer, view, cause })?;
        Ok(())
    }

    /// Takes a message of a peer in, and does what follows from it.
    pub(crate) fn hear(&mut self, now: usize, peer: u32, message: &Message) -> Result<()> {
        if self.has_blocked(peer) {
            self.counts.dropped = self.counts.dropped.saturating_add(1);
            return Ok(());
        }
        match message {
            Message::Vote(vote) => self.hear_vote(peer, *vote)?,
            Message::Certificate(certificate) => self.hear_certificate(peer, certificate)?,
        }
        self.settle(now)
    }

    fn hear_vote(&mut self, peer: u32, vote: AnyVote) -> Result<(), AllocError> {
        self.counts.votes = self.counts.votes.saturating_add(1);
        self.heard = vote.round().view.0;
        match self.station.hear_vote(Name(u64::from(peer)), vote)? {
            Receipt::Answered(admission) => {
                if admission.added {
                    self.counts.added = self.counts.added.saturating_add(1);
                }
            }
            Receipt::Outside => self.counts.outside = self.counts.outside.saturating_add(1),
            Receipt::Dropped | Receipt::Unknown => {
                self.counts.dropped = self.counts.dropped.saturating_add(1);
            }
        }
        Ok(())
    }

    // A certificate that it has is of no use again, and is not verified.
    fn hear_certificate(&mut self, peer: u32, certificate: &AnyCertificate) -> Result<()> {
        self.heard = certificate.round().view.0;
        if self.station.has(certificate.kind(), self.heard) {
            return Ok(());
        }
        match self
            .station
            .hear_certificate(Name(u64::from(peer)), certificate.clone()?)?
        {
            Receipt::Outside => self.catch_up(peer, certificate)?,
            Receipt::Answered(Verdict::Recorded(_) | Verdict::Forged | Verdict::Known)
            | Receipt::Dropped
            | Receipt::Unknown => {}
        }
        Ok(())
    }

    /// Whether a certificate would have it go on from a view beyond those that it looks at.
    pub(crate) fn is_ahead(&self, certificate: &AnyCertificate) -> bool {
        let view = certificate.round().view.0;
        certificate.kind() == Kind::Finalization
            && certificate.round() == numbered(view)
            && view > self.station.first_view()
    }

    // Goes on from a finalization, where it fell behind.
    fn catch_up(&mut self, peer: u32, certificate: &AnyCertificate) -> Result<()> {
        if self.is_ahead(certificate) {
            let key = Name(u64::from(peer));
            let _ = self.station.catch_up(key, certificate.clone()?)?;
        }
        Ok(())
    }

    /// Gives the current view up when it has taken too long, and says again what it has said, since
    /// that may be lost.
    pub(crate) fn wait(&mut self, now: usize) -> Result<()> {
        if now.saturating_sub(self.since) >= PATIENCE {
            self.since = now;
            if self.current <= VIEWS {
                self.station.expire(self.current);
            }
            if self.current <= VIEWS || self.said < REPEATS {
                self.said = self.said.saturating_add(1);
                self.station.send_again();
            }
        }
        self.settle(now)
    }

    // Does what is to be done, until nothing is.
    fn settle(&mut self, now: usize) -> Result<()> {
        for _ in 0..MOST_TASKS {
            match self.station.poll()? {
                Some(task) => self.perform(now, task)?,
                None => {
                    self.counts.rounds = self.counts.rounds.max(self.station.rounds_kept());
                    return Ok(());
                }
            }
        }
        bail!("there is no end of what is to be done");
    }

    fn perform(&mut self, now: usize, task: AnyTask) -> Result<()> {
        match task {
            Task::Block(peer, cause) => self.block(peer.get(), cause)?,
            // Its payloads are in its proposals.
            Task::Final(_) | Task::Forward(_) => {}
            Task::Cast(vote) => self.station.cast_again(self.alloc, vote)?,
            Task::SendVote(vote) => self.outbox.push(Message::Vote(vote))?,
            Task::SendCertificate(kind, round) => self.send_certificate(kind, round)?,
            Task::Enter(view) => self.enter(now, view)?,
            Task::Verify => self.verify()?,
            Task::Sign(subject) => self.station.sign(subject)?,
            Task::Propose { view, parent } => {
                if view.0 <= VIEWS {
                    self.station.propose(view, parent, b'a');
                }
            }
            Task::Judge(proposal) => {
                if proposal.round.view.0 <= VIEWS {
                    self.station.accept(&proposal);
                }
            }
        }
        Ok(())
    }

    fn send_certificate(&mut self, kind: Kind, round: Round) -> Result<(), AllocError> {
        if let Some(certificate) = self.station.certificate(kind, round)? {
            self.outbox.push(Message::Certificate(certificate))?;
        }
        Ok(())
    }

    fn enter(&mut self, now: usize, view: View) -> Result<()> {
        self.station.enter(view, leader_of(view.0))?;
        self.current = view.0;
        self.since = now;
        Ok(())
    }

    fn verify(&mut self) -> Result<(), AllocError> {
        if let Some(view) = self.station.verified_next() {
            self.heard = view;
        }
        self.station.verify()
    }
}
