//! A validator of the library, with what it signs by. Each call is in a function that promises
//! little, since what a call promises is carried to its caller's end.

ghost use Rattle.std.specs.Prelude.{◌≡◌, ◌<◌, length};

use anyhow::{Result, bail};
use batcher::messages::{Certificate, Kind, Proposal, Sha256Digest, Subject, Vote};
use batcher::positions::{Epoch, Participant, Round, View};
use batcher::round::Admission;
use batcher::scheme::{AttestationList, Counter, Keyed, Name};
use batcher::votes::Mode;
use batcher_bytes::MemoryLog;
use batcher_evidence::attests;
use batcher_journal::{Journal, Owner, Unopened};
use batcher_node::{Ahead, Cast, Cause, EnterFault, Node, Receipt, Verdict};
use batcher_validator::{PollFault, Task, Validator};
use batcher_voter::{CastFault, NotStarted};
use std::alloc::{AllocError, Global};
use std::marker::Model;
use std::rc::Rc;

pub(crate) type DemoScheme = Keyed<true>;

pub(crate) type AnyVote = Vote<[u8; 32], Sha256Digest>;

pub(crate) type AnyCertificate = Certificate<AttestationList, Sha256Digest>;

pub(crate) type AnyTask = Task<[u8; 32], Sha256Digest>;

const EPOCH: Epoch = Epoch(16);
// So many views beyond the current one are looked at.
pub(crate) const AHEAD: u64 = 3;

// The number of a view's round.
pub(crate) fn numbered(view: u64) -> Round {
    Round {
        epoch: EPOCH,
        view: View(view),
    }
}

fn owner(me: u32) -> Owner<'static> {
    Owner {
        namespace: b"demo",
        keys: b"thirteen",
        participant: Participant::new(me),
        digest_len: 32,
        signature_len: 32,
    }
}

// The validator of a participant. Contracts see it as the index.
#[derive(Drop)]
pub(crate) struct Station {
    validator: Validator<DemoScheme, Sha256Digest, MemoryLog>,
    scheme: Rc<DemoScheme>,
    me: Participant,
    rng: Counter,
    /// How many constructions it has made.
    pub(crate) constructions: usize,
}

impl Model for Station {
    ghost use Rattle.std.specs.Prelude.{◌≡◌, ◌<◌, ℕ, length};

    ghost Value = { ℕ };

    ghost view = { λ s. s.me.0 };

    ghost invariant = { λ s. (s.validator.voter.node.scheme ≡ s.scheme.value)
        × (s.me.0 < length s.scheme.value.participants) };
}

impl Station {
    // One that begins with the epoch, on a disk without bytes.
    pub(crate) fn new(alloc: Global, scheme: Rc<DemoScheme>, me: u32) -> Result<Self> {
        let mut log = MemoryLog::new(alloc);
        begin(alloc, &mut log, me)?;
        if me as usize >= scheme.participants.len() {
            bail!("validator {me} has no key");
        }
        Station::of(alloc, log, scheme, Participant::new(me))
    }

    // The same by what is on its disk.
    fn of(alloc: Global, log: MemoryLog, scheme: Rc<DemoScheme>, me: Participant) -> Result<Self>
        requires { me.0 < length scheme.value.participants }
    {
        let again = Rc::clone(&scheme)?;
        let journal = opened(alloc, log, me.get())?;
        match Validator::start(alloc, again, AHEAD, true, journal) {
            Ok(validator) => Ok(Station {
                validator,
                scheme,
                me,
                rng: Counter::new(0),
                constructions: 0,
            }),
            Err(NotStarted { .. }) => bail!("no validator is made of the journal"),
        }
    }

    // It ends, and begins again by its disk alone.
    pub(crate) fn restarted(self, alloc: Global) -> Result<Self> {
        let Station {
            validator,
            scheme,
            me,
            ..
        } = self;
        let log = validator.into_voter().into_journal().into_log();
        Station::of(alloc, log, scheme, me)
    }

    // What is to be done next.
    pub(crate) fn poll(&mut self) -> Result<Option<AnyTask>> {
        match self.validator.poll() {
            Ok(task) => Ok(task),
            Err(PollFault::OutOfMemory) => Err(AllocError.into()),
            Err(PollFault::Full | PollFault::Closed) => bail!("the disk failed"),
        }
    }

    pub(crate) fn hear_vote(
        &mut self,
        peer: Name,
        vote: AnyVote,
    ) -> Result<Receipt<Admission<[u8; 32], Sha256Digest>>, AllocError> {
        self.validator.receive_vote(peer, vote)
    }

    pub(crate) fn hear_certificate(
        &mut self,
        peer: Name,
        certificate: AnyCertificate,
    ) -> Result<Receipt<Verdict>, AllocError> {
        self.validator.receive_certificate(peer, certificate)
    }

    // It goes on by a certificate from beyond its window. Who forged it is blocked.
    pub(crate) fn catch_up(
        &mut self,
        peer: Name,
        certificate: AnyCertificate,
    ) -> Result<Receipt<Ahead>, AllocError> {
        self.validator.catch_up(peer, certificate)
    }

    pub(crate) fn enter(&mut self, view: View, leader: u32) -> Result<(), EnterFault> {
        self.validator.enter(view, Participant::new(leader))
    }

    // Votes that wait are verified.
    pub(crate) fn verify(&mut self) -> Result<(), AllocError> {
        if self.validator.try_construct(&mut self.rng)? {
            self.constructions = self.constructions.saturating_add(1);
        }
        Ok(())
    }

    // Signs a vote, and casts it.
    pub(crate) fn sign(&mut self, subject: Subject<Sha256Digest>) -> Result<()> {
        let vote = Vote::new(subject, self.scheme.sign(self.me, subject));
        is_cast(self.validator.cast(vote))
    }

    // Casts a vote of an earlier life again, as it was signed.
    pub(crate) fn cast_again(&mut self, alloc: Global, vote: AnyVote) -> Result<()> {
        if !attests(alloc, &*self.scheme, &mut self.rng, &vote)? {
            bail!("the disk has a vote that doesn't attest");
        }
        is_cast(self.validator.cast(vote))
    }

    // It proposes the payload of a letter.
    pub(crate) fn propose(&mut self, view: View, parent: View, letter: u8) {
        self.validator
            .propose(view, parent, Sha256Digest([letter; 32]));
    }

    // What is proposed is valid.
    pub(crate) fn accept(&mut self, proposal: &Proposal<Sha256Digest>) {
        self.validator.judge(proposal, true);
    }

    // The time of a view is over.
    pub(crate) fn expire(&mut self, view: u64) {
        self.validator.expire(View(view));
    }

    pub(crate) fn send_again(&mut self) {
        self.validator.send_again();
    }

    // A copy of the certificate of this kind and round, if it keeps one.
    pub(crate) fn certificate(
        &self,
        kind: Kind,
        round: Round,
    ) -> Result<Option<AnyCertificate>, AllocError> {
        match self.validator.certificate(kind, round) {
            Some(certificate) => Ok(Some(certificate.clone()?)),
            None => Ok(None),
        }
    }

    // Whether it keeps a certificate of that kind and view.
    pub(crate) fn has(&self, kind: Kind, view: u64) -> bool {
        self.validator.certificate(kind, numbered(view)).is_some()
    }

    // The first view that is looked at.
    pub(crate) fn first_view(&self) -> u64 {
        self.node().window().finalized
    }

    pub(crate) fn rounds_kept(&self) -> usize {
        self.node().rounds_kept()
    }

    // Why the node has blocked a peer, if it has.
    pub(crate) fn cause_against(&self, peer: u32) -> Option<Cause> {
        match self.node().blocked().get(peer as usize) {
            Some(cause) => *cause,
            None => None,
        }
    }

    // Whether messages of the view are looked at.
    pub(crate) fn looks_at(&self, view: u64) -> bool {
        self.node().window().contains(view)
    }

    // The view whose votes are verified next, if any wait.
    pub(crate) fn verified_next(&self) -> Option<u64> {
        match self.node().next_view() {
            Some(view) => Some(view.0),
            None => None,
        }
    }

    // The proposal that is selected in the view.
    pub(crate) fn selected(&self, view: u64) -> Option<Proposal<Sha256Digest>> {
        match self.node().round(View(view)) {
            Some(round) => round.proposal(),
            None => None,
        }
    }

    // Whether votes of the view are kept as evidence, and make certificates.
    pub(crate) fn keeps_evidence(&self, view: u64) -> bool {
        match self.node().round(View(view)) {
            Some(round) => round.mode() == Mode::Retaining,
            None => false,
        }
    }

    fn node(&self) -> &Node<DemoScheme, Sha256Digest> {
        self.validator.voter().node()
    }
}

fn is_cast(
    cast: Result<Cast<[u8; 32], Sha256Digest>, CastFault<[u8; 32], Sha256Digest>>,
) -> Result<()> {
    match cast {
        Ok(_) => Ok(()),
        Err(CastFault::OutOfMemory) => Err(AllocError.into()),
        Err(_) => bail!("a vote is refused that may be signed"),
    }
}

// Begins a journal at the start of the epoch.
fn begin(alloc: Global, log: &mut MemoryLog, me: u32) -> Result<()> {
    let begun = Journal::<[u8; 32], Sha256Digest, MemoryLog>::begin(
        alloc,
        log,
        &owner(me),
        numbered(0),
        b"",
    );
    match begun {
        Ok(()) => Ok(()),
        Err(_) => bail!("no journal begins"),
    }
}

fn opened(
    alloc: Global,
    log: MemoryLog,
    me: u32,
) -> Result<Journal<[u8; 32], Sha256Digest, MemoryLog>> {
    match Journal::open(alloc, log, &owner(me)) {
        Ok(journal) => Ok(journal),
        Err(Unopened { .. }) => bail!("the journal doesn't open"),
    }
}
