//! What holds of reports, and of certificates of two histories, as contracts of functions that do
//! nothing.

ghost use Rattle.batcher_evidence.specs.Examples.{EvidenceExamples};
ghost use Rattle.batcher_evidence.specs.Rounds.{ReportsConvict, AreAccountable};
ghost use Rattle.batcher_evidence.specs.Rounds.{TakeContradictingVotes};

use crate::Accountable;
use batcher::messages::Digest;
use batcher::scheme::Scheme;

/// Does nothing. Its contract is worked examples: a fork of four that exactly two participants
/// made, and what is near to one, computed from the definitions.
pub fn worked_examples()
    ensures { EvidenceExamples }
{}

/// Does nothing. Its contract says of every history of a round for which what `run` promises holds,
/// as it does for that of a run and of a view of a node, that a report of a conflict whose two
/// votes attest convicts their signer, who is the sender of the later one.
pub fn reports_convict<S: Scheme<D>, D: Digest>()
    ensures { (scheme : S)
        → ReportsConvict (S.meaning scheme) S.PublicKey.cmp S.Signature.eq D.eq }
{}

/// Does nothing. Its contract says of any two such histories over an accountable scheme, whoever
/// holds the rounds and whatever was called, that of certificates which were given in them and
/// which contradict each other `culprits` gives a list.
pub fn rounds_are_accountable<S: Accountable<D>, D: Digest>()
    ensures { (scheme : S)
        → AreAccountable (S.meaning scheme) S.PublicKey.cmp S.Signature.eq D.eq S.shown }
{}

/// Does nothing. Its contract says of any two such histories of rounds of one number, whatever the
/// scheme's certificates show, what it takes that certificates were given in them which contradict
/// each other: more participants than may be faulty have cast votes in the two that contradict each
/// other.
///
/// So with fewer such participants no two rounds of one number give such certificates.
pub fn forks_take_contradicting_votes<S: Scheme<D>, D: Digest>()
    ensures { (scheme : S)
        → TakeContradictingVotes (S.meaning scheme) S.PublicKey.cmp S.Signature.eq D.eq }
{}
