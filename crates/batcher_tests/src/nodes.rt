//! Tests of nodes, of what no clause says: that a call succeeds where memory is there, and again
//! where it was refused once; and some histories, with what they come to by hand.
//!
//! The calls of a node are in functions that promise nothing, and take it by `&mut`: wherever a
//! function that owns a node may end, its drop is proved once more.

ghost use Rattle.std.specs.Prelude.{◌≡◌, ◌<◌, ℕ, true};
ghost use Rattle.batcher.specs.Votes.{subject_of, attestation_of};
ghost use Rattle.batcher_rows.specs.Plain.{is_plainly_signed};

mod histories;
mod memory;

use batcher::messages::{Attestation, Certificate, Kind, Proposal, Sha256Digest, Subject, Vote};
use batcher::positions::{Epoch, Participant, Round, View};
use batcher::round::{Admission, BlockReason, OwnFault};
use batcher::scheme::{Counter, Name, names};
use batcher::verifier::Batch;
use batcher::votes::Mode;
use batcher_node::{Cast, Cause, Construction, EnterFault, Node, Receipt, Verdict, Window};
use batcher_rows::plain::{Padded, Plain, Tally, sign};
use std::alloc::{AllocError, Global};
use std::marker::Model;
use std::process::Abort;
use std::rc::Rc;
use std::test::Fail;

type Digest = Sha256Digest;

// Signatures carry a number that isn't verified, so that a vote can be signed anew.
type TestScheme = Plain<u64>;

type TestVote = Vote<Padded<u64>, Digest>;

type TestCertificate = Certificate<Tally, Digest>;

type TestConstruction = Construction<Tally, Digest>;

const EPOCH: Epoch = Epoch(5);

// The participant that casts votes of its own.
const ME: u32 = 3;

// How many participants there are. Three of them are a quorum.
const PARTICIPANTS: u32 = 4;

// So many views beyond the current one are in the window.
const AHEAD: u64 = 2;

// The number of a view's round.
fn numbered(view: u64) -> Round {
    Round::new(EPOCH, View(view))
}

// To notarize a proposal for the view, with a payload of equal bytes.
fn notarize(view: u64, payload: u8) -> Subject<Digest> {
    let proposal = Proposal::new(numbered(view), View(0), Sha256Digest([payload; 32]));
    Subject::Notarize { proposal }
}

fn nullify(view: u64) -> Subject<Digest> {
    let round = numbered(view);
    Subject::Nullify { round }
}

fn finalize(view: u64, payload: u8) -> Subject<Digest> {
    let proposal = Proposal::new(numbered(view), View(0), Sha256Digest([payload; 32]));
    Subject::Finalize { proposal }
}

// The vote of a signer by the signature of this number.
fn vote(signer: u32, subject: Subject<Digest>, number: u64) -> TestVote
    ensures subject { subject_of result ≡ subject }
    ensures attests { (n : ℕ) → signer < n
        → is_plainly_signed n subject (attestation_of result) ≡ true }
{
    Vote::new(subject, sign(Participant::new(signer), subject, number))
}

// The vote of a signer with a signature that is off by a bit.
fn bad_vote(signer: u32, subject: Subject<Digest>) -> TestVote {
    let signer = Participant::new(signer);
    let mut signature = sign(signer, subject, 0).signature;
    signature.word ^= 1;
    Vote::new(subject, Attestation { signer, signature })
}

// A certificate of so many votes.
fn certificate(subject: Subject<Digest>, count: usize) -> TestCertificate {
    Certificate::new(subject, Tally { count, sum: 0 })
}

// A node of four participants, with the scheme by which they sign.
#[derive(Drop)]
struct Station {
    node: Node<TestScheme, Digest>,
    scheme: Rc<TestScheme>,
}

impl Model for Station {
    ghost use Rattle.std.specs.Prelude.{◌≡◌, ℕ, length};

    ghost Value = { ℕ };

    ghost view = { λ s. length s.scheme.value.participants };

    ghost invariant = { λ s. (s.node.scheme ≡ s.scheme.value)
        × (length s.scheme.value.participants ≡ 4) };
}

// What is seen of a node from outside.
#[derive(Clone, Copy, Debug, PartialEq, Eq)]
struct Seen {
    window: Window,
    rounds: usize,
    blocked: usize,
    first: Option<SeenRound>,
    second: Option<SeenRound>,
}

#[derive(Clone, Copy, Debug, PartialEq, Eq)]
struct SeenRound {
    mode: Mode,
    leader: Option<Participant>,
    selected: Option<Proposal<Digest>>,
    notarized: bool,
    nullified: bool,
    finalized: bool,
}

impl Station {
    fn new(rt: &impl Abort, alloc: Global, retains: bool) -> Result<Self, AllocError> {
        match Station::made(rt, alloc, retains) {
            Ok(station) => Ok(station),
            Err(_) => Station::made(rt, alloc, retains),
        }
    }

    fn made(rt: &impl Abort, alloc: Global, retains: bool) -> Result<Self, AllocError> {
        let participants = names(alloc, PARTICIPANTS)?;
        assert!(rt; participants.len() == 4);
        let padding = 0;
        let scheme = Rc::new(
            alloc,
            Plain {
                participants,
                padding,
            },
        )?;
        let again = Rc::clone(&scheme)?;
        let node = Node::new(alloc, EPOCH, again, View(0), AHEAD, retains)?;
        Ok(Station { node, scheme })
    }

    fn seen(&self) -> Seen {
        Seen {
            window: self.node.window(),
            rounds: self.node.rounds_kept(),
            blocked: self.count_blocked(),
            first: self.seen_in(1),
            second: self.seen_in(2),
        }
    }

    fn count_blocked(&self) -> usize {
        let mut blocked = 0usize;
        for cause in self.node.blocked() {
            blocked = blocked.saturating_add(usize::from(cause.is_some()));
        }
        blocked
    }

    fn seen_in(&self, view: u64) -> Option<SeenRound> {
        match self.node.round(View(view)) {
            Some(round) => Some(SeenRound {
                mode: round.mode(),
                leader: round.leader(),
                selected: round.proposal(),
                notarized: round.has_certificate(Kind::Notarization),
                nullified: round.has_certificate(Kind::Nullification),
                finalized: round.has_certificate(Kind::Finalization),
            }),
            None => None,
        }
    }

    // Why a participant is blocked.
    fn cause_against(&self, participant: u32) -> Option<Cause> {
        match self.node.blocked().get(participant as usize) {
            Some(cause) => *cause,
            None => None,
        }
    }

    // Each call below is made once more where memory was refused, and the node is as it was then.

    fn enter(&mut self, rt: &impl Abort, view: u64, leader: u32) -> Result<(), EnterFault> {
        let before = self.seen();
        let leader = Participant::new(leader);
        match self.node.enter(View(view), leader) {
            Err(EnterFault::OutOfMemory) => {
                assert_eq!(rt; self.seen(), before);
                self.node.enter(View(view), leader)
            }
            answer => answer,
        }
    }

    // A participant sends a vote.
    fn hear(
        &mut self,
        rt: &impl Abort,
        peer: u32,
        vote: TestVote,
    ) -> Result<Receipt<Admission<Padded<u64>, Digest>>, AllocError> {
        let before = self.seen();
        let peer = Name(u64::from(peer));
        match self.node.receive_vote(peer, vote) {
            Ok(receipt) => Ok(receipt),
            Err(_) => {
                assert_eq!(rt; self.seen(), before);
                self.node.receive_vote(peer, vote)
            }
        }
    }

    // A participant sends a certificate.
    fn learn(
        &mut self,
        rt: &impl Abort,
        peer: u32,
        certificate: &TestCertificate,
    ) -> Result<Receipt<Verdict>, AllocError> {
        let before = self.seen();
        let peer = Name(u64::from(peer));
        match self.node.receive_certificate(peer, certificate) {
            Ok(receipt) => Ok(receipt),
            Err(_) => {
                assert_eq!(rt; self.seen(), before);
                self.node.receive_certificate(peer, certificate)
            }
        }
    }

    // Casts a vote of its own, by the signature of this number. It is given where it is to be sent.
    fn cast(
        &mut self,
        rt: &impl Abort,
        subject: Subject<Digest>,
        number: u64,
    ) -> Result<Option<TestVote>, OwnFault> {
        let before = self.seen();
        let vote = vote(ME, subject, number);
        let answer = match self.node.cast_vote(vote) {
            Err(OwnFault::OutOfMemory) => {
                assert_eq!(rt; self.seen(), before);
                self.node.cast_vote(vote)
            }
            answer => answer,
        };
        match answer? {
            Cast::ToSend(_) => Ok(Some(vote)),
            Cast::Known => Ok(None),
            Cast::Outside => {
                assert!(rt; false, "the view is in the window");
                Ok(None)
            }
        }
    }

    fn construct(&mut self, rt: &impl Abort) -> Result<Option<TestConstruction>, AllocError> {
        let before = self.seen();
        match self.node.try_construct(&mut Counter::new(0)) {
            Ok(made) => Ok(made),
            Err(_) => {
                assert_eq!(rt; self.seen(), before);
                self.node.try_construct(&mut Counter::new(0))
            }
        }
    }

    // What they come to:

    // A good vote of a participant is taken in.
    fn adds(
        &mut self,
        rt: &impl Abort,
        peer: u32,
        subject: Subject<Digest>,
    ) -> Result<(), AllocError> {
        self.adds_vote(rt, peer, vote(peer, subject, 0))
    }

    fn adds_vote(&mut self, rt: &impl Abort, peer: u32, vote: TestVote) -> Result<(), AllocError> {
        match self.hear(rt, peer, vote)? {
            Receipt::Answered(admission) => {
                assert!(rt; admission.added);
                assert_eq!(rt; admission.block, None);
            }
            Receipt::Outside | Receipt::Dropped | Receipt::Unknown => {
                assert!(rt; false, "the vote is looked at")
            }
        }
        Ok(())
    }

    // A vote of a participant is refused, and it is blocked for it.
    fn blocks(
        &mut self,
        rt: &impl Abort,
        peer: u32,
        vote: TestVote,
        reason: BlockReason,
    ) -> Result<(), AllocError> {
        match self.hear(rt, peer, vote)? {
            Receipt::Answered(admission) => {
                assert!(rt; !admission.added);
                assert_eq!(rt; admission.block, Some(reason));
            }
            Receipt::Outside | Receipt::Dropped | Receipt::Unknown => {
                assert!(rt; false, "the vote is looked at")
            }
        }
        assert_eq!(rt; self.cause_against(peer), Some(Cause::Vote(reason)));
        Ok(())
    }

    // A construction in the view gives a certificate of so many votes.
    fn certifies(
        &mut self,
        rt: &impl Abort,
        view: u64,
        subject: Subject<Digest>,
        processed: usize,
    ) -> Result<(), Fail> {
        let batch = self.batch_of(rt, view)?;
        assert_eq!(rt; batch.processed, processed);
        assert!(rt; batch.invalid.is_empty());
        assert!(rt; !batch.fallback);
        let certified = match &batch.certificate {
            Some(certificate) => Some(certificate.subject()),
            None => None,
        };
        assert_eq!(rt; certified, Some(subject));
        Ok(())
    }

    // A construction in the view gives none of so many votes, and names a participant, whom the
    // node blocks.
    fn finds_bad(
        &mut self,
        rt: &impl Abort,
        view: u64,
        processed: usize,
        named: u32,
    ) -> Result<(), Fail> {
        let batch = self.batch_of(rt, view)?;
        assert_eq!(rt; batch.processed, processed);
        assert_eq!(rt;
            batch.invalid.as_slice(),
            [Participant::new(named)].as_slice()
        );
        assert!(rt; batch.fallback);
        assert!(rt; batch.certificate.is_none());
        assert_eq!(rt; self.cause_against(named), Some(Cause::Signature));
        Ok(())
    }

    fn batch_of(&mut self, rt: &impl Abort, view: u64) -> Result<Batch<TestCertificate>, Fail> {
        let made = self.construct(rt)?.ok_or("all views rest")?;
        assert_eq!(rt; made.view, View(view));
        Ok(made.batch.ok_or("no kind is ready")?)
    }

    // A construction in the view gives no batch.
    fn gives_none(&mut self, rt: &impl Abort, view: u64) -> Result<(), Fail> {
        let made = self.construct(rt)?.ok_or("all views rest")?;
        assert_eq!(rt; made.view, View(view));
        assert!(rt; made.batch.is_none());
        Ok(())
    }

    // All views rest.
    fn rests(&mut self, rt: &impl Abort) -> Result<(), AllocError> {
        assert!(rt; self.construct(rt)?.is_none());
        Ok(())
    }
}
