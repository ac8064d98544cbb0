//! Tests of what no clause says: that what is to be done comes, and in which order. By hand.

ghost use Rattle.std.specs.Prelude.{◌≡◌, ◌<◌, ℕ, length};

mod network;

use batcher::messages::{Attestation, Certificate, Kind, Proposal, Sha256Digest, Subject, Vote};
use batcher::positions::{Epoch, Participant, Round, View};
use batcher::round::BlockReason;
use batcher::scheme::{AttestationList, Counter, Keyed, Name, Scheme, names};
use batcher_bytes::MemoryLog;
use batcher_example::verdicts_on;
use batcher_journal::{Journal, Owner, Unopened};
use batcher_node::{Ahead, Cast, Cause, Receipt, Verdict};
use batcher_validator::{PollFault, Task, Validator};
use batcher_voter::NotStarted;
use std::alloc::Global;
use std::marker::Model;
use std::process::Abort;
use std::rc::Rc;
use std::test::Fail;

type Digest = Sha256Digest;

type TestValidator = Validator<Keyed<true>, Digest, MemoryLog>;

type TestTask = Task<[u8; 32], Digest>;

type TestAttestation = Attestation<[u8; 32]>;

type TestCertificate = Certificate<AttestationList, Digest>;

type TestReceipt = Receipt<Verdict>;

type TestVote = Vote<[u8; 32], Digest>;

const EPOCH: Epoch = Epoch(5);

// The participant that votes alone. Three of four are a quorum.
const ME: u32 = 3;

fn owner(me: u32) -> Owner<'static> {
    Owner {
        namespace: b"test",
        keys: b"keys",
        participant: Participant(me),
        digest_len: 32,
        signature_len: 32,
    }
}

fn at(view: u64) -> Round {
    Round::new(EPOCH, View(view))
}

fn proposal(view: u64, parent: u64) -> Proposal<Digest> {
    Proposal::new(at(view), View(parent), Sha256Digest([1; 32]))
}

fn notarize(view: u64, parent: u64) -> Subject<Digest> {
    let proposal = proposal(view, parent);
    Subject::Notarize { proposal }
}

fn nullify(view: u64) -> Subject<Digest> {
    let round = at(view);
    Subject::Nullify { round }
}

fn finalize(view: u64, parent: u64) -> Subject<Digest> {
    let proposal = proposal(view, parent);
    Subject::Finalize { proposal }
}

// A validator of four participants, with the scheme by which they sign.
#[derive(Drop)]
struct Station {
    validator: TestValidator,
    scheme: Rc<Keyed<true>>,
    rng: Counter,
    me: u32,
}

impl Model for Station {
    ghost use Rattle.std.specs.Prelude.{◌≡◌, ◌<◌, ℕ, length};

    ghost Value = { ℕ };

    ghost view = { λ s. length s.scheme.value.participants };

    ghost invariant = { λ s. (s.validator.voter.node.scheme ≡ s.scheme.value)
        × ((length s.scheme.value.participants ≡ 4) × (s.me < 4)) };
}

impl Station {
    // The validator of a journal that is begun.
    fn new(rt: &impl Abort, alloc: Global, me: u32) -> Result<Self, Fail>
        requires { me < 4 }
    {
        let mut log = MemoryLog::new(alloc);
        assert!(rt;
            Journal::<[u8; 32], Digest, MemoryLog>::begin(
                alloc,
                &mut log,
                &owner(me),
                at(0),
                b""
            ).is_ok()
        );
        Station::of(rt, alloc, log, me)
    }

    // The validator of a log.
    fn of(rt: &impl Abort, alloc: Global, log: MemoryLog, me: u32) -> Result<Self, Fail>
        requires { me < 4 }
    {
        let participants = names(alloc, 4)?;
        let scheme = Rc::new(alloc, Keyed::new(participants, [7; 32]))?;
        let again = Rc::clone(&scheme)?;
        let journal = match Journal::open(alloc, log, &owner(me)) {
            Ok(journal) => journal,
            Err(Unopened { .. }) => return Err(Fail::new("no journal is there")),
        };
        match Validator::start(alloc, again, 5, true, journal) {
            Ok(validator) => Ok(Station {
                validator,
                scheme,
                rng: Counter::new(0),
                me,
            }),
            Err(NotStarted { fault, .. }) => {
                assert_eq!(rt; fault, batcher_voter::StartFault::OutOfMemory);
                Err(Fail::new("no validator is made"))
            }
        }
    }

    // It ends, and is started by its disk alone.
    fn restarted(self, rt: &impl Abort, alloc: Global) -> Result<Self, Fail> {
        let Station {
            validator,
            scheme,
            me,
            ..
        } = self;
        drop(scheme);
        Station::of(
            rt,
            alloc,
            validator.into_voter().into_journal().into_log(),
            me,
        )
    }

    fn poll(&mut self) -> Result<Option<TestTask>, PollFault> {
        self.validator.poll()
    }

    // This is to be done next.
    fn gives(&mut self, rt: &impl Abort, task: TestTask) {
        assert_eq!(rt; self.poll(), Ok(Some(task)));
    }

    fn rests(&mut self, rt: &impl Abort) {
        assert_eq!(rt; self.poll(), Ok(None));
    }

    fn enter(&mut self, rt: &impl Abort, view: u64) {
        self.gives(rt, Task::Enter(View(view)));
        assert!(rt; self.validator.enter(View(view), Participant(0)).is_ok());
    }

    // Votes wait, and are verified. It says whether a construction was made.
    fn verify(&mut self, rt: &impl Abort) -> Result<bool, Fail> {
        self.gives(rt, Task::Verify);
        Ok(self.validator.try_construct(&mut self.rng)?)
    }

    // What waits to be verified, as it is lent.
    fn lent(&self, alloc: Global) -> Result<(Subject<Digest>, Vec<TestAttestation>), Fail> {
        let attempt = match self.validator.next_attempt() {
            Some(attempt) => attempt,
            None => return Err(Fail::new("nothing is lent")),
        };
        let mut list = Vec::new(alloc);
        list.extend_from_slice(attempt.pending)?;
        Ok((attempt.subject, list))
    }

    // Verdicts are handed in on what was lent. It says whether a construction was made by them.
    fn conclude(
        &mut self,
        alloc: Global,
        subject: Subject<Digest>,
        list: &[TestAttestation],
    ) -> Result<bool, Fail> {
        let verdicts = verdicts_on(alloc, &*self.scheme, subject, list)?;
        Ok(self.validator.conclude(subject, list, verdicts.as_slice())?)
    }

    // All votes that wait are verified, and nothing else is to be done.
    fn verify_all(&mut self, rt: &impl Abort) -> Result<(), Fail> {
        for _ in 0..4 {
            match self.poll() {
                Ok(Some(Task::Verify)) => {
                    let _ = self.validator.try_construct(&mut self.rng)?;
                }
                Ok(None) => return Ok(()),
                _ => panic!(rt; "something else is to be done"),
            }
        }
        Err(Fail::new("votes wait for ever"))
    }

    // It is to sign this, and the vote is given to be sent once it is written.
    fn sign(&mut self, rt: &impl Abort, subject: Subject<Digest>) {
        self.gives(rt, Task::Sign(subject));
        let vote = Vote::new(subject, self.scheme.sign(Participant(self.me), subject));
        match self.validator.cast(vote) {
            Ok(Cast::ToSend(_)) => {}
            _ => panic!(rt; "the vote isn't to be sent"),
        }
        self.gives(rt, Task::SendVote(vote));
    }

    // A vote of its own that is on the disk is given to be cast again, and is.
    fn casts_again(&mut self, rt: &impl Abort, subject: Subject<Digest>) {
        let written = Vote::new(subject, self.scheme.sign(Participant(self.me), subject));
        self.gives(rt, Task::Cast(written));
        assert!(rt; self.try_cast(subject));
    }

    // It is given to be sent.
    fn sends_again(&mut self, rt: &impl Abort, subject: Subject<Digest>) {
        let vote = Vote::new(subject, self.scheme.sign(Participant(self.me), subject));
        self.gives(rt, Task::SendVote(vote));
    }

    // It says whether a vote of its own could be cast.
    fn try_cast(&mut self, subject: Subject<Digest>) -> bool {
        let vote = Vote::new(subject, self.scheme.sign(Participant(self.me), subject));
        self.validator.cast(vote).is_ok()
    }

    // A participant's vote comes from it.
    fn hear(&mut self, signer: u32, subject: Subject<Digest>) -> Result<(), Fail> {
        let vote = Vote::new(subject, self.scheme.sign(Participant(signer), subject));
        self.receive_vote(signer, vote)
    }

    fn receive_vote(&mut self, peer: u32, vote: TestVote) -> Result<(), Fail> {
        let _ = self.validator.receive_vote(Name(u64::from(peer)), vote)?;
        Ok(())
    }

    fn lends(&self) -> bool {
        self.validator.next_attempt().is_some()
    }

    // What waits is verified. It says whether a construction was made.
    fn construct(&mut self) -> Result<bool, Fail> {
        Ok(self.validator.try_construct(&mut self.rng)?)
    }

    fn judge(&mut self, proposal: &Proposal<Digest>, valid: bool) {
        self.validator.judge(proposal, valid);
    }

    fn propose(&mut self, view: View, parent: View) {
        self.validator.propose(view, parent, Sha256Digest([1; 32]));
    }

    fn expire(&mut self, view: u64) {
        self.validator.expire(View(view));
    }

    fn send_again(&mut self) {
        self.validator.send_again();
    }

    // It enters the view with this leader. It says whether it could.
    fn enters(&mut self, view: View, leader: u32) -> bool {
        self.validator.enter(view, Participant(leader)).is_ok()
    }

    // A peer sends a certificate of the window, and one from beyond it.
    fn receive(&mut self, peer: u32, certificate: TestCertificate) -> Result<TestReceipt, Fail> {
        let key = Name(u64::from(peer));
        Ok(self.validator.receive_certificate(key, certificate)?)
    }

    fn catch_up(
        &mut self,
        peer: u32,
        certificate: TestCertificate,
    ) -> Result<Receipt<Ahead>, Fail> {
        let key = Name(u64::from(peer));
        Ok(self.validator.catch_up(key, certificate)?)
    }

    fn is_heard(&self, peer: u32) -> bool {
        self.validator
            .voter()
            .node()
            .is_heard(&Name(u64::from(peer)))
    }

    // How many certificates it keeps.
    fn kept(&self) -> usize {
        self.validator.certificates().len()
    }

    // The certificate that it keeps of the kind and the round, copied.
    fn copied(&self, kind: Kind, round: Round) -> Result<Option<TestCertificate>, Fail> {
        match self.validator.certificate(kind, round) {
            Some(it) => Ok(Some(it.clone()?)),
            None => Ok(None),
        }
    }

    fn looks_at(&self, view: u64) -> bool {
        self.validator.voter().node().window().contains(view)
    }

    fn certificate(
        &self,
        alloc: Global,
        subject: Subject<Digest>,
    ) -> Result<TestCertificate, Fail> {
        let mut attestations = Vec::new(alloc);
        for signer in 0..3u32 {
            let attestation: Attestation<[u8; 32]> = self.scheme.sign(Participant(signer), subject);
            attestations.push(attestation)?;
        }
        Ok(Certificate::new(subject, AttestationList::new(attestations)))
    }
}

#[test]
fn what_is_to_be_done_comes(rt: HostRuntime) -> Result<(), Fail> {
    let mut station = Station::new(&rt, rt.alloc(), ME)?;
    let played = play(&mut station, &rt);
    match played {
        Ok(()) => {}
        Err(fail) => {
            drop(station);
            return Err(fail);
        }
    }
    let mut again = station.restarted(&rt, rt.alloc())?;
    let went = go_on(&mut again, &rt);
    drop(again);
    went
}

fn play(station: &mut Station, rt: &impl Abort) -> Result<(), Fail> {
    station.enter(rt, 1);
    // Votes are given to be verified once, until they are.
    station.gives(rt, Task::Verify);
    station.rests(rt);
    assert!(rt; station.construct()?);
    station.rests(rt);
    // What the leader proposes is given to be judged once, and notarized where it is valid.
    station.hear(0, notarize(1, 0))?;
    station.gives(rt, Task::Judge(proposal(1, 0)));
    station.gives(rt, Task::Verify);
    station.rests(rt);
    station.judge(&proposal(1, 0), true);
    station.sign(rt, notarize(1, 0));
    station.rests(rt);
    station.hear(1, notarize(1, 0))?;
    assert!(rt; station.construct()?);
    station.enter(rt, 2);
    station.gives(rt, Task::SendCertificate(Kind::Notarization, at(1)));
    station.gives(rt, Task::Forward(at(1)));
    assert!(rt; station.copied(Kind::Notarization, at(1))?.is_some());
    // What is notarized is finalized.
    station.sign(rt, finalize(1, 0));
    station.hear(0, finalize(1, 0))?;
    station.hear(1, finalize(1, 0))?;
    assert!(rt; station.verify(rt)?);
    // What is final comes before what is to be sent.
    station.gives(rt, Task::Final(proposal(1, 0)));
    station.gives(rt, Task::SendCertificate(Kind::Finalization, at(1)));
    assert_eq!(rt; station.kept(), 2);
    station.verify_all(rt)?;
    // A peer that contradicts itself is to be blocked, and once.
    station.hear(2, notarize(2, 1))?;
    station.hear(2, nullify(2))?;
    station.hear(2, finalize(2, 1))?;
    let reason = BlockReason::FinalizeAfterNullify;
    station.gives(rt, Task::Block(Participant(2), Cause::Vote(reason)));
    // A view whose time is over is given up, and nothing more is judged there.
    station.expire(3);
    station.gives(rt, Task::Verify);
    station.rests(rt);
    station.expire(2);
    station.sign(rt, nullify(2));
    station.hear(0, notarize(2, 1))?;
    station.rests(rt);
    // Own votes of the current view are given again, when that is asked for, and the newest
    // certificates.
    station.send_again();
    station.sends_again(rt, nullify(2));
    station.gives(rt, Task::SendCertificate(Kind::Notarization, at(1)));
    station.gives(rt, Task::Forward(at(1)));
    station.gives(rt, Task::SendCertificate(Kind::Finalization, at(1)));
    station.rests(rt);
    Ok(())
}

// By its disk it knows what is final, and has votes and certificates from there on.
fn go_on(station: &mut Station, rt: &impl Abort) -> Result<(), Fail> {
    station.gives(rt, Task::Final(proposal(1, 0)));
    station.enter(rt, 2);
    station.casts_again(rt, notarize(1, 0));
    station.casts_again(rt, finalize(1, 0));
    station.casts_again(rt, nullify(2));
    station.sends_again(rt, notarize(1, 0));
    station.sends_again(rt, finalize(1, 0));
    station.sends_again(rt, nullify(2));
    station.gives(rt, Task::SendCertificate(Kind::Finalization, at(1)));
    station.gives(rt, Task::SendCertificate(Kind::Notarization, at(1)));
    station.gives(rt, Task::Forward(at(1)));
    // The view stays given up.
    station.hear(0, notarize(2, 1))?;
    station.gives(rt, Task::Verify);
    station.rests(rt);
    Ok(())
}

#[test]
fn verdicts_come_late(rt: HostRuntime) -> Result<(), Fail> {
    let mut station = Station::new(&rt, rt.alloc(), ME)?;
    let concluded = conclude(&mut station, &rt, rt.alloc());
    drop(station);
    concluded
}

fn conclude(station: &mut Station, rt: &impl Abort, alloc: Global) -> Result<(), Fail> {
    station.enter(rt, 1);
    station.hear(0, nullify(1))?;
    station.hear(1, nullify(1))?;
    // Two of four are no quorum: nothing is lent, and the view rests.
    assert!(rt; !station.lends());
    assert!(rt; station.verify(rt)?);
    station.rests(rt);
    station.hear(2, nullify(1))?;
    station.gives(rt, Task::Verify);
    let (subject, list) = station.lent(alloc)?;
    assert_eq!(rt; (subject, list.len()), (nullify(1), 3));
    assert!(rt; station.conclude(alloc, subject, list.as_slice())?);
    station.enter(rt, 2);
    station.gives(rt, Task::SendCertificate(Kind::Nullification, at(1)));
    // Verdicts that come too late change nothing, and votes that wait are given to be verified.
    station.hear(0, nullify(2))?;
    station.gives(rt, Task::Verify);
    station.rests(rt);
    assert!(rt; !station.conclude(alloc, subject, list.as_slice())?);
    station.gives(rt, Task::Verify);
    Ok(())
}

#[test]
fn who_leads_proposes(rt: HostRuntime) -> Result<(), Fail> {
    let mut station = Station::new(&rt, rt.alloc(), 0)?;
    let led = lead(&mut station, &rt);
    drop(station);
    led
}

// It leads each view.
fn lead(station: &mut Station, rt: &impl Abort) -> Result<(), Fail> {
    station.enter(rt, 1);
    let (view, parent) = (View(1), View(0));
    station.gives(rt, Task::Propose { view, parent });
    station.gives(rt, Task::Verify);
    station.rests(rt);
    // It is asked once. A payload for a view that it isn't in yet is dropped.
    station.propose(View(2), View(1));
    station.rests(rt);
    station.propose(View(1), View(0));
    station.sign(rt, notarize(1, 0));
    station.rests(rt);
    Ok(())
}

// What one from beyond the window is answered that certifies.
const CERTIFIED: Receipt<Ahead> = Receipt::Answered(Ahead::Certified);

#[test]
fn who_fell_behind_catches_up(rt: HostRuntime) -> Result<(), Fail> {
    let mut station = Station::new(&rt, rt.alloc(), ME)?;
    let caught = catch_up(&mut station, &rt, rt.alloc());
    drop(station);
    caught
}

fn catch_up(station: &mut Station, rt: &impl Abort, alloc: Global) -> Result<(), Fail> {
    let far = station.certificate(alloc, finalize(90, 1))?;
    assert_eq!(rt; station.catch_up(0, far)?, CERTIFIED);
    station.gives(rt, Task::Final(proposal(90, 1)));
    station.enter(rt, 91);
    station.gives(rt, Task::SendCertificate(Kind::Finalization, at(90)));
    // One that is before the final view isn't looked at, nor one of the window.
    let passed = station.certificate(alloc, finalize(89, 1))?;
    assert_eq!(rt; station.catch_up(0, passed)?, Receipt::Outside);
    let near = station.certificate(alloc, finalize(91, 1))?;
    assert_eq!(rt; station.catch_up(0, near)?, Receipt::Outside);
    assert_eq!(rt; station.kept(), 1);
    station.gives(rt, Task::Verify);
    station.rests(rt);
    // A certificate of the window is handed in with its sender.
    let known = station.certificate(alloc, notarize(91, 90))?;
    match station.receive(0, known)? {
        Receipt::Answered(Verdict::Recorded(_)) => {}
        _ => panic!(rt; "the certificate isn't recorded"),
    }
    station.gives(rt, Task::Enter(View(92)));
    station.gives(rt, Task::SendCertificate(Kind::Notarization, at(91)));
    station.gives(rt, Task::Forward(at(91)));
    station.gives(rt, Task::Sign(finalize(91, 90)));
    station.rests(rt);
    // Who forges one from beyond the window is blocked, once, and nothing else of it is looked at.
    let forged = Certificate::new(finalize(195, 0), AttestationList::new(Vec::new(alloc)));
    let heard = station.catch_up(1, forged)?;
    assert_eq!(rt; heard, Receipt::Answered(Ahead::Forged));
    assert!(rt; !station.is_heard(1));
    station.gives(rt, Task::Block(Participant(1), Cause::Certificate));
    station.rests(rt);
    let far = station.certificate(alloc, finalize(195, 1))?;
    assert_eq!(rt; station.catch_up(1, far)?, Receipt::Dropped);
    let far = station.certificate(alloc, finalize(195, 1))?;
    assert_eq!(rt; station.catch_up(4, far)?, Receipt::Unknown);
    // Its sender isn't blocked.
    let far = station.certificate(alloc, finalize(195, 1))?;
    assert_eq!(rt; station.catch_up(2, far)?, CERTIFIED);
    station.gives(rt, Task::Final(proposal(195, 1)));
    assert!(rt; station.is_heard(2));
    Ok(())
}

#[test]
fn views_of_who_is_absent_or_blocked_are_given_up(rt: HostRuntime) -> Result<(), Fail> {
    let mut station = Station::new(&rt, rt.alloc(), ME)?;
    let given_up = give_up(&mut station, &rt, rt.alloc());
    drop(station);
    given_up
}

fn give_up(station: &mut Station, rt: &impl Abort, alloc: Global) -> Result<(), Fail> {
    // Nothing comes of the first participant in two turns of all four.
    for view in 1..=8 {
        assert!(rt; !gives_up(station, rt, view, 0)?);
        nullified(station, alloc, view, 1)?;
    }
    assert!(rt; gives_up(station, rt, 9, 0)?);
    nullified(station, alloc, 9, 1)?;
    // Certificates of another came, and it waits for itself.
    assert!(rt; !gives_up(station, rt, 10, 1)?);
    nullified(station, alloc, 10, 1)?;
    assert!(rt; !gives_up(station, rt, 11, ME)?);
    nullified(station, alloc, 11, 1)?;
    // Any vote is a sign of life, also of a view that is over.
    station.hear(0, nullify(1))?;
    assert!(rt; !gives_up(station, rt, 12, 0)?);
    nullified(station, alloc, 12, 1)?;
    let forged = Certificate::new(nullify(13), AttestationList::new(Vec::new(alloc)));
    let heard = station.receive(2, forged)?;
    assert_eq!(rt; heard, Receipt::Answered(Verdict::Forged));
    assert!(rt; gives_up(station, rt, 13, 2)?);
    Ok(())
}

// It enters a view with its leader. It says whether it gives that up.
fn gives_up(station: &mut Station, rt: &impl Abort, view: u64, leader: u32) -> Result<bool, Fail> {
    let mut is_over = false;
    for _ in 0..16 {
        match station.poll() {
            Ok(Some(Task::Enter(next))) => {
                assert_eq!(rt; next, View(view));
                assert!(rt; station.enters(next, leader));
            }
            Ok(Some(Task::Verify)) => {
                let _ = station.construct()?;
            }
            Ok(Some(Task::Sign(subject))) => {
                let is_nullify = subject.is_same(&nullify(view));
                assert!(rt; is_nullify);
                is_over = true;
                if !station.try_cast(subject) {
                    return Err(Fail::new("the vote isn't cast"));
                }
            }
            Ok(Some(_)) => {}
            Ok(None) => return Ok(is_over),
            Err(_) => return Err(Fail::new("nothing is given")),
        }
    }
    Err(Fail::new("it has something to do for ever"))
}

// A participant sends a nullification of a view.
fn nullified(station: &mut Station, alloc: Global, view: u64, sender: u32) -> Result<(), Fail> {
    let certificate = station.certificate(alloc, nullify(view))?;
    let _ = station.receive(sender, certificate)?;
    Ok(())
}
