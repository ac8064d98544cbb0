//! A validator: a voter, with what it gave to be done.

ghost use Rattle.std.specs.Prelude.{◌≡◌, ◌≤◌, ◌<◌, ◌⊎◌, ◌^◌, [], All, false, Contains, IfErr};
ghost use Rattle.std.specs.Prelude.{IfOk, IfSome, None, length, take};
ghost use Rattle.batcher.specs.Verifiers.{certifies_itself};
ghost use Rattle.batcher_agreement.specs.Policy.{Conduct, KeepsPolicy};
ghost use Rattle.batcher_bytes.specs.Messages.{certificate_format};
ghost use Rattle.batcher_validator.specs.Queues.{HasKey};
ghost use Rattle.batcher_validator.specs.Running.{HasBegun};
ghost use Rattle.batcher_validator.specs.Shelves.{kind_and_round};
ghost use Rattle.batcher_validator.specs.Unsigned.{nothing_unsigned};
ghost use Rattle.batcher_voter.specs.Remembering.{Remembers};
ghost use Rattle.batcher_voter.specs.Reopening.{IsFinalView, IsTakenIn};
ghost use Rattle.batcher_voter.specs.Unstarted.{WhyNotStarted, all_in};
ghost use Rattle.batcher_voter.specs.Voting.{IsMadeOf};

use crate::decided::Decided;
use crate::presence::Presence;
use crate::resending::Resending;
use crate::shelf::Shelf;
use crate::tally::Tally;
use crate::unsigned::Unsigned;
use batcher::messages::{Certificate, Digest, Identical, Kind, Proposal, Subject, Vote};
use batcher::positions::{Participant, Round};
use batcher::scheme::Scheme;
use batcher_bytes::{Codec, Log, OwnedCodec};
use batcher_journal::Journal;
use batcher_node::NodeConfigs;
use batcher_voter::{NotStarted, StartFault, Voter};
use std::alloc::Global;
use std::marker::Model;
use std::rc::Rc;

/// What a validator means to vote for.
#[derive(Drop)]
pub(crate) struct Intent<D: Digest> {
    // As whom it votes.
    pub(crate) me: Participant,
    // What was given to be signed, last of all, since it last was to send again.
    pub(crate) signing: Option<Subject<D>>,
    // Which signatures were refused since then.
    pub(crate) unsigned: Unsigned,
    // The highest view whose time is over, or that was given up, or 0.
    pub(crate) expired: u64,
    // The proposal of the highest view that is its own, or valid.
    pub(crate) chosen: Option<Proposal<D>>,
    // The last view of which a proposal was given to be made, or to be judged, or 0.
    pub(crate) posed: u64,
}

impl<D: Digest> Model for Intent<D> {
    ghost use Rattle.batcher_validator.specs.Running.{IntentView};

    ghost Value = { IntentView D };

    ghost view = { λ i. record {
      me = i.me;
      signing = i.signing;
      unsigned = i.unsigned;
      expired = i.expired;
      chosen = i.chosen;
      posed = i.posed;
    } };
}

/// What a validator has noted of what it gave.
#[derive(Drop)]
pub(crate) struct Given<D: Digest> {
    // Whether each participant was given to be blocked.
    pub(crate) blocked: Vec<bool>,
    // Whether nobody is to be blocked, as far as is noted.
    pub(crate) calm: bool,
    // The last view of which a proposal was given as final, or 0.
    pub(crate) announced: u64,
    pub(crate) tally: Tally,
    // What was to be sent again, last of all.
    pub(crate) resending: Resending,
    // The last view that was given to be entered, or 0.
    pub(crate) asked: u64,
    // Whether votes were given to be verified, and there is no answer yet.
    pub(crate) verifying: bool,
    // The round of the notarization that was given to be sent, of which nothing was forwarded yet.
    pub(crate) forwarding: Option<Round>,
    pub(crate) intent: Intent<D>,
    // Views in which it has voted to finalize or to nullify, as far as is noted.
    pub(crate) decided: Decided,
    pub(crate) presence: Presence,
}

impl<D: Digest> Model for Given<D> {
    ghost use Rattle.batcher_validator.specs.Running.{GivenView};

    ghost Value = { GivenView D };

    ghost view = { λ g. record {
      blocked = g.blocked.items;
      calm = g.calm;
      announced = g.announced;
      tally = g.tally;
      resending = g.resending;
      asked = g.asked;
      verifying = g.verifying;
      forwarding = g.forwarding;
      intent = g.intent;
      decided = g.decided;
      presence = g.presence;
    } };
}

/// A voter that says what is to be done next.
#[derive(Drop)]
pub struct Validator<S: Scheme<D>, D: Digest + Codec, L: Log>
where
    S::Signature: Codec,
    S::Certificate: OwnedCodec,
{
    pub(crate) voter: Voter<S, D, L>,
    pub(crate) given: Given<D>,
    pub(crate) shelf: Shelf<S::Certificate, D>,
    // That of its voter, which says who a peer is.
    pub(crate) scheme: Rc<S>,
}

impl<S: Scheme<D>, D: Digest + Codec, L: Log> Model for Validator<S, D, L>
where
    S::Signature: Codec,
    S::Certificate: OwnedCodec,
{
    ghost use Rattle.std.specs.Prelude.{◌≡◌, ◌<◌, ◌^◌, length};
    ghost use Rattle.batcher_validator.specs.Running.{ValidatorView};

    ghost Value = { ValidatorView S S.Signature D L S.Certificate };

    ghost view = { λ v. record { voter = v.voter; given = v.given; shelf = v.shelf } };

    ghost invariant = { λ v. (length v.given.blocked
        ≡ length (S.meaning v.voter.node.scheme).participants)
        × ((length v.given.blocked < 2 ^ 32) × (v.scheme.value ≡ v.voter.node.scheme)) };
}

impl<S: Scheme<D>, D: Digest + Codec, L: Log> Validator<S, D, L>
where
    S::Signature: Codec + Identical,
    S::Certificate: OwnedCodec,
{
    /// The validator whose votes are in a journal, as `Voter::start` makes its voter. It gave
    /// nothing so far in this life.
    pub fn start(
        alloc: Global,
        scheme: Rc<S>,
        ahead: u64,
        track_historical_votes: bool,
        journal: Journal<S::Signature, D, L>,
    ) -> Result<Self, NotStarted<S::Signature, D, L>>
        requires { 1 ≤ length (S.meaning scheme.value).participants }
        ensures running { IfOk result (λ validator. (earlier : Conduct D) → KeepsPolicy earlier
            → Remembers earlier journal.contents
            → HasBegun (⟦<S as NodeConfigs<D>>⟧.of validator.voter.node)
            (certificate_format S.Certificate.format D.format) earlier validator) }
        ensures knows_floor { IfOk result (λ validator. (journal.contents.floor.view.0 ≡ 0)
            ⊎ IsFinalView validator.voter.knowledge journal.contents.floor.view.0) }
        ensures knows_kept { IfOk result (λ validator. All (IsTakenIn
            (certificate_format S.Certificate.format D.format) validator.voter.node.epoch
            validator.voter.knowledge) journal.contents.certificates) }
        ensures made { IfOk result (λ it.
            IsMadeOf scheme.value ahead track_historical_votes journal it.voter) }
        ensures refused { IfErr result (λ it. it.journal ≡ journal) }
        ensures why { IfErr result (λ it. WhyNotStarted
            (certificate_format S.Certificate.format D.format) (all_in journal)
            (certifies_itself (S.meaning scheme.value)) it.fault) }
    {
        let me = journal.participant();
        let begun = journal.votes().len();
        let mut blocked = Vec::new(alloc);
        match blocked.resize(scheme.participants().len(), false) {
            Ok(()) => {}
            Err(_) => {
                return Err(NotStarted {
                    fault: StartFault::OutOfMemory,
                    journal,
                });
            }
        }
        let presence = match Presence::new(alloc, scheme.participants().len()) {
            Ok(presence) => presence,
            Err(_) => {
                return Err(NotStarted {
                    fault: StartFault::OutOfMemory,
                    journal,
                });
            }
        };
        let same = match Rc::clone(&scheme) {
            Ok(same) => same,
            Err(_) => {
                return Err(NotStarted {
                    fault: StartFault::OutOfMemory,
                    journal,
                });
            }
        };
        let mut validator = match Voter::start(
            alloc,
            scheme,
            ahead,
            track_historical_votes,
            journal,
        ) {
            Ok(voter) => Validator::of(alloc, same, voter, blocked, presence, me, begun),
            Err(it) => return Err(it),
        };
        match validator.recall(alloc) {
            Ok(()) => Ok(validator),
            Err(fault) => {
                let journal = validator.into_voter().into_journal();
                Err(NotStarted { fault, journal })
            }
        }
    }

    // The validator of a voter, which gave nothing.
    fn of(
        alloc: Global,
        scheme: Rc<S>,
        voter: Voter<S, D, L>,
        blocked: Vec<bool>,
        presence: Presence,
        me: Participant,
        begun: usize,
    ) -> Self
        requires each { length blocked.items
            ≡ length (S.meaning voter.node.scheme).participants }
        requires few { length blocked.items < 2 ^ 32 }
        requires same { scheme.value ≡ voter.node.scheme }
        ensures voter { result.voter ≡ voter }
        ensures given { result.given ≡ record {
          blocked = blocked.items;
          calm = false;
          announced = 0;
          tally = record { begun = begun; recast = 0; sent = 0; resent = 0 };
          resending = record { from = 0; turn = 0 };
          asked = 0;
          verifying = false;
          forwarding = None;
          intent = record {
            me = me;
            signing = None;
            unsigned = nothing_unsigned;
            expired = 0;
            chosen = None;
            posed = 0;
          };
          decided = record { first = 0; end = 0 };
          presence = presence;
        } }
        ensures empty { result.shelf.certificates ≡ [] }
        ensures handed { result.shelf.handed ≡ 0 }
    {
        Validator {
            voter,
            given: Given {
                blocked,
                calm: false,
                announced: 0,
                tally: Tally {
                    begun,
                    recast: 0,
                    sent: 0,
                    resent: 0,
                },
                resending: Resending { from: 0, turn: 0 },
                asked: 0,
                verifying: false,
                forwarding: None,
                intent: Intent {
                    me,
                    signing: None,
                    unsigned: Unsigned::nothing(),
                    expired: 0,
                    chosen: None,
                    posed: 0,
                },
                decided: Decided { first: 0, end: 0 },
                presence,
            },
            shelf: Shelf::new(alloc),
            scheme,
        }
    }

    /// The voter, to look at.
    pub fn voter(&self) -> &Voter<S, D, L>
        ensures { result.now ≡ self.now.voter }
    {
        &self.voter
    }

    /// How many participants there are.
    pub fn participants(&self) -> usize
        ensures { result ≡ length (S.meaning self.now.voter.node.scheme).participants }
    {
        self.given.blocked.len()
    }

    /// The voter, without what was given.
    pub fn into_voter(self) -> Voter<S, D, L>
        ensures { result ≡ self.voter }
    {
        let Validator { voter, shelf, .. } = self;
        drop(shelf);
        voter
    }

    /// The votes of earlier lives that its journal has, in the order in which they were written. So
    /// they are on the disk.
    pub fn earlier_votes(&self) -> &[Vote<S::Signature, D>]
        ensures { result.now
            ≡ take self.now.given.tally.begun self.now.voter.journal.contents.votes }
    {
        let votes = self.voter.journal().votes();
        let begun = self.given.tally.begun;
        if begun < votes.len() {
            return &votes[..begun];
        }
        votes
    }

    /// The certificates that it keeps: of views from the final one on, of each kind and view one.
    /// They are in the order in which they came, but for those that were given again. Send them to
    /// who fell behind.
    pub fn certificates(&self) -> &[Certificate<S::Certificate, D>]
        ensures { result.now ≡ self.now.shelf.certificates }
    {
        self.shelf.as_slice()
    }

    /// The certificate of this kind and round, if it keeps one.
    pub fn certificate(&self, kind: Kind, round: Round) -> Option<&Certificate<S::Certificate, D>>
        ensures some { IfSome result (λ c. Contains self.now.shelf.certificates c.now
            × (kind_and_round c.now ≡ (kind, round))) }
        ensures none { result ≡ None
            → HasKey kind_and_round self.now.shelf.certificates (kind, round) → ⊥ }
    {
        self.shelf.get(kind, round)
    }
}
