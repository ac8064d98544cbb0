//! Tests of what no clause says: that a voter votes where memory is there and the disk works, and
//! that it goes on by its disk alone. Which rule refuses a vote is by hand.

ghost use Rattle.std.specs.Prelude.{◌≡◌, ℕ, length};

use batcher::messages::{Attestation, Certificate, Proposal, Sha256Digest, Subject, Vote};
use batcher::positions::{Epoch, Participant, Round, View};
use batcher::scheme::{AttestationList, Keyed, Name, names};
use batcher_bytes::MemoryLog;
use batcher_journal::{Journal, Owner, Unopened};
use batcher_node::{Cast, Receipt, Verdict};
use batcher_voter::{CastFault, FinalizeFault, NotStarted, Permission, Rule, StartFault, Voter};
use std::alloc::Global;
use std::marker::Model;
use std::process::Abort;
use std::rc::Rc;
use std::test::Fail;

type Digest = Sha256Digest;

type TestVoter = Voter<Keyed<true>, Digest, MemoryLog>;

type TestCertificate = Certificate<AttestationList, Digest>;

const EPOCH: Epoch = Epoch(5);

// The participant that votes. Three of four are a quorum.
const ME: u32 = 3;

fn owner() -> Owner<'static> {
    Owner {
        namespace: b"test",
        keys: b"keys",
        participant: Participant(ME),
        digest_len: 32,
        signature_len: 32,
    }
}

fn at(view: u64) -> Round {
    Round::new(EPOCH, View(view))
}

fn proposal(view: u64, parent: u64, payload: u8) -> Proposal<Digest> {
    Proposal::new(at(view), View(parent), Sha256Digest([payload; 32]))
}

fn notarize(view: u64, parent: u64) -> Subject<Digest> {
    let proposal = proposal(view, parent, 1);
    Subject::Notarize { proposal }
}

fn nullify(view: u64) -> Subject<Digest> {
    let round = at(view);
    Subject::Nullify { round }
}

fn finalize(view: u64, parent: u64) -> Subject<Digest> {
    let proposal = proposal(view, parent, 1);
    Subject::Finalize { proposal }
}

// A voter of four participants, with the scheme by which they sign.
#[derive(Drop)]
struct Station {
    voter: TestVoter,
    scheme: Rc<Keyed<true>>,
}

impl Model for Station {
    ghost use Rattle.std.specs.Prelude.{◌≡◌, ℕ, length};

    ghost Value = { ℕ };

    ghost view = { λ s. length s.scheme.value.participants };

    ghost invariant = { λ s. (s.voter.node.scheme ≡ s.scheme.value)
        × (length s.scheme.value.participants ≡ 4) };
}

impl Station {
    // The voter of a journal that is begun.
    fn new(rt: &impl Abort, alloc: Global) -> Result<Self, Fail> {
        let mut log = MemoryLog::new(alloc);
        assert!(rt;
            Journal::<[u8; 32], Digest, MemoryLog>::begin(
                alloc,
                &mut log,
                &owner(),
                at(0),
                b""
            ).is_ok()
        );
        Station::of(rt, alloc, log)
    }

    // The voter of a log.
    fn of(rt: &impl Abort, alloc: Global, log: MemoryLog) -> Result<Self, Fail> {
        let participants = names(alloc, 4)?;
        let scheme = Rc::new(alloc, Keyed::new(participants, [7; 32]))?;
        let again = Rc::clone(&scheme)?;
        let journal = match Journal::open(alloc, log, &owner()) {
            Ok(journal) => journal,
            Err(Unopened { .. }) => return Err(Fail::new("no journal is there")),
        };
        match Voter::start(alloc, again, 5, true, journal) {
            Ok(voter) => Ok(Station { voter, scheme }),
            Err(NotStarted { fault, .. }) => {
                assert_eq!(rt; fault, StartFault::OutOfMemory);
                Err(Fail::new("no voter is made"))
            }
        }
    }

    // It ends, and is started by its disk alone.
    fn restarted(self, rt: &impl Abort, alloc: Global) -> Result<Self, Fail> {
        let Station { voter, scheme } = self;
        drop(scheme);
        Station::of(rt, alloc, voter.into_journal().into_log())
    }

    fn enter(&mut self, rt: &impl Abort, view: u64) {
        assert!(rt; self.voter.enter(View(view), Participant(0)).is_ok());
    }

    fn ask(&self, subject: Subject<Digest>) -> Permission<[u8; 32], Digest> {
        self.voter.ask(&subject)
    }

    fn next(&self) -> Option<View> {
        self.voter.next_view()
    }

    fn parent(&self, view: u64) -> Option<View> {
        self.voter.parent_for(View(view))
    }

    // A view is made the final one, by a certificate.
    fn finalize(
        &mut self,
        alloc: Global,
        subject: Subject<Digest>,
    ) -> Result<Result<(), FinalizeFault>, Fail> {
        let finalization = self.certificate(alloc, subject)?;
        let moved = self.voter.finalize(&finalization);
        drop(finalization);
        Ok(moved)
    }

    // The same by a finalization that nobody signed.
    fn forge(&mut self, alloc: Global) -> Result<(), FinalizeFault> {
        let forged = Certificate::new(finalize(9, 0), AttestationList::new(Vec::new(alloc)));
        let moved = self.voter.finalize(&forged);
        drop(forged);
        moved
    }

    // Casts a vote, which is to be sent.
    fn cast(&mut self, rt: &impl Abort, subject: Subject<Digest>) -> Vote<[u8; 32], Digest> {
        let vote = Vote::new(subject, self.scheme.sign(Participant(ME), subject));
        match self.voter.cast(vote, None) {
            Ok(Cast::ToSend(_)) => {}
            _ => panic!(rt; "the vote isn't to be sent"),
        }
        vote
    }

    // The same where it isn't.
    fn refused(&mut self, subject: Subject<Digest>) -> Option<CastFault<[u8; 32], Digest>> {
        let vote = Vote::new(subject, self.scheme.sign(Participant(ME), subject));
        match self.voter.cast(vote, None) {
            Ok(_) => None,
            Err(fault) => Some(fault),
        }
    }

    fn certificate(
        &self,
        alloc: Global,
        subject: Subject<Digest>,
    ) -> Result<TestCertificate, Fail> {
        let mut attestations = Vec::new(alloc);
        for signer in 0..3u32 {
            let attestation: Attestation<[u8; 32]> = self.scheme.sign(Participant(signer), subject);
            attestations.push(attestation)?;
        }
        Ok(Certificate::new(subject, AttestationList::new(attestations)))
    }

    // A certificate comes from 0, and is recorded.
    fn hear(
        &mut self,
        rt: &impl Abort,
        alloc: Global,
        subject: Subject<Digest>,
    ) -> Result<(), Fail> {
        let certificate = self.certificate(alloc, subject)?;
        match self.voter.receive_certificate(Name(0), &certificate) {
            Ok(Receipt::Answered(Verdict::Recorded(_))) => {}
            _ => panic!(rt; "the certificate isn't recorded"),
        }
        drop(certificate);
        Ok(())
    }
}

#[test]
fn a_view_is_voted(rt: HostRuntime) -> Result<(), Fail> {
    let mut station = Station::new(&rt, rt.alloc())?;
    let voted = vote_in(&mut station, &rt, rt.alloc());
    drop(station);
    voted
}

fn vote_in(station: &mut Station, rt: &impl Abort, alloc: Global) -> Result<(), Fail> {
    station.enter(rt, 1);
    assert_eq!(rt; station.ask(notarize(1, 0)), Permission::Sign);
    assert_eq!(rt;
        station.ask(finalize(1, 0)),
        Permission::Refused(Rule::NotNotarized)
    );
    let vote = station.cast(rt, notarize(1, 0));
    assert_eq!(rt; station.ask(notarize(1, 0)), Permission::Known(vote));
    let proposal = proposal(1, 0, 2);
    let other = Subject::Notarize { proposal };
    assert_eq!(rt;
        station.ask(other),
        Permission::Refused(Rule::Contradicts(vote))
    );
    assert_eq!(rt;
        station.refused(other),
        Some(CastFault::Refused(Rule::Contradicts(vote)))
    );
    station.hear(rt, alloc, notarize(1, 0))?;
    let last = station.cast(rt, finalize(1, 0));
    assert_eq!(rt;
        station.ask(nullify(1)),
        Permission::Refused(Rule::Contradicts(last))
    );
    assert_eq!(rt; station.ask(notarize(9, 1)), Permission::Outside);
    assert_eq!(rt; station.next(), Some(View(2)));
    assert_eq!(rt; station.parent(2), Some(View(1)));
    Ok(())
}

#[test]
fn a_parent_is_known_and_no_view_left_out(rt: HostRuntime) -> Result<(), Fail> {
    let mut station = Station::new(&rt, rt.alloc())?;
    let voted = vote_above(&mut station, &rt, rt.alloc());
    drop(station);
    voted
}

fn vote_above(station: &mut Station, rt: &impl Abort, alloc: Global) -> Result<(), Fail> {
    assert_eq!(rt; station.next(), Some(View(1)));
    assert_eq!(rt; station.parent(1), Some(View(0)));
    station.enter(rt, 3);
    assert_eq!(rt;
        station.ask(notarize(3, 3)),
        Permission::Refused(Rule::ParentNotEarlier)
    );
    assert_eq!(rt;
        station.ask(notarize(3, 1)),
        Permission::Refused(Rule::ParentUnknown)
    );
    station.hear(rt, alloc, notarize(1, 0))?;
    let rule = Rule::ViewNotNullified(View(2));
    assert_eq!(rt; station.ask(notarize(3, 1)), Permission::Refused(rule));
    assert_eq!(rt; station.parent(3), None);
    station.hear(rt, alloc, nullify(2))?;
    assert_eq!(rt; station.next(), Some(View(3)));
    assert_eq!(rt; station.parent(3), Some(View(1)));
    assert_eq!(rt; station.ask(notarize(3, 1)), Permission::Sign);
    // What it gave up it doesn't notarize, and a proposal needs each view down to its parent.
    let _ = station.cast(rt, nullify(3));
    assert_eq!(rt;
        station.ask(notarize(3, 1)),
        Permission::Refused(Rule::Nullified)
    );
    assert_eq!(rt;
        station.ask(notarize(2, 0)),
        Permission::Refused(Rule::ViewNotNullified(View(1)))
    );
    Ok(())
}

#[test]
fn it_goes_on_by_its_disk_alone(rt: HostRuntime) -> Result<(), Fail> {
    let mut station = Station::new(&rt, rt.alloc())?;
    match go_on(&mut station, &rt, rt.alloc()) {
        Ok(()) => {}
        Err(fail) => {
            drop(station);
            return Err(fail);
        }
    }
    let mut again = station.restarted(&rt, rt.alloc())?;
    let went = went_on(&mut again, &rt);
    drop(again);
    went
}

fn go_on(station: &mut Station, rt: &impl Abort, alloc: Global) -> Result<(), Fail> {
    station.enter(rt, 1);
    let _ = station.cast(rt, notarize(1, 0));
    station.hear(rt, alloc, notarize(1, 0))?;
    let _ = station.cast(rt, finalize(1, 0));
    station.hear(rt, alloc, finalize(1, 0))?;
    assert_eq!(rt; station.finalize(alloc, finalize(1, 0))?, Ok(()));
    station.enter(rt, 2);
    station.hear(rt, alloc, nullify(2))?;
    station.enter(rt, 3);
    let _ = station.cast(rt, notarize(3, 1));
    Ok(())
}

fn went_on(station: &mut Station, rt: &impl Abort) -> Result<(), Fail> {
    assert_eq!(rt; station.next(), Some(View(3)));
    assert_eq!(rt; station.parent(3), Some(View(1)));
    station.enter(rt, 3);
    // Its vote is sent again, and it knows what that rests on.
    let vote = station.cast(rt, notarize(3, 1));
    assert_eq!(rt; station.ask(notarize(3, 1)), Permission::Known(vote));
    assert_eq!(rt; station.ask(notarize(2, 1)), Permission::Sign);
    let proposal = proposal(3, 1, 2);
    let other = Subject::Notarize { proposal };
    assert_eq!(rt;
        station.ask(other),
        Permission::Refused(Rule::Contradicts(vote))
    );
    assert_eq!(rt;
        station.ask(notarize(4, 0)),
        Permission::Refused(Rule::ParentBeforeFinal)
    );
    Ok(())
}

#[test]
fn a_finalization_is_verified(rt: HostRuntime) -> Result<(), Fail> {
    let mut station = Station::new(&rt, rt.alloc())?;
    let verified = verify(&mut station, &rt, rt.alloc());
    drop(station);
    verified
}

fn verify(station: &mut Station, rt: &impl Abort, alloc: Global) -> Result<(), Fail> {
    assert_eq!(rt; station.forge(alloc), Err(FinalizeFault::Forged));
    assert_eq!(rt;
        station.finalize(alloc, notarize(9, 0))?,
        Err(FinalizeFault::NotOfEpoch)
    );
    // Who fell behind goes on from a view that is far ahead.
    assert_eq!(rt; station.finalize(alloc, finalize(90, 1))?, Ok(()));
    assert_eq!(rt; station.next(), Some(View(91)));
    station.enter(rt, 91);
    assert_eq!(rt; station.ask(notarize(91, 90)), Permission::Sign);
    assert_eq!(rt;
        station.finalize(alloc, finalize(89, 1))?,
        Err(FinalizeFault::Passed)
    );
    Ok(())
}
