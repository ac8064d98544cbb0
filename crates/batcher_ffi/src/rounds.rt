//! The calls of a round, over flat values. Each answers a code.

ghost use Rattle.std.specs.Prelude.{◌≡◌, ◌≢◌, ◌↔◌, ◌&&◌, nat_lt, true, Some};
ghost use Rattle.batcher_types.specs.Votes.{attestation_of};
ghost use Rattle.std.specs.List.{list_all};
ghost use Rattle.batcher_histories.specs.declared.answers.OwnFault.{OwnFault as TheFault};
ghost use Rattle.batcher_ffi.specs.Flat.{fault_in};
ghost use Rattle.batcher_ffi.specs.Rounds.{is_one_of, refusals, AddsNetwork, AcceptsVote};
ghost use Rattle.batcher_ffi.specs.Rounds.{RecordsCertificate, NamesFirstLeader, Forwards};
ghost use Rattle.batcher_ffi.specs.Rounds.{AsksLeader, AsksProposal, AsksCertificate, AsksNullify};
ghost use Rattle.batcher_ffi.specs.Rounds.{AsksMissing, ListsMissing, IsVerified, AreVerifiedHere};
ghost use Rattle.batcher_ffi.specs.Rounds.{PassTogether, Certifies, RecordsVerdicts, Constructs};
ghost use Rattle.batcher_ffi.specs.Rounds.{ConstructsTogether, is_short};

use crate::codes::{
    CONFLICTING, DONE, ELSEWHERE, IDLE, LEADER_CHANGED, MALFORMED, NOT_VERIFIED, OUT_OF_MEMORY,
    SHORT, STALE, VERIFY,
};
use crate::flat::{
    FlatAdmission, FlatAttestation, FlatProposal, FlatStep, FlatVote, fault_code, kind_of,
    subject_of,
};
use crate::handle::Round;
use crate::writing::{attestations_of, copied, write_batch, write_signers, write_wanted};
use batcher_bytes::{Content, Signature, Verified};
use batcher_types::messages::{Attestation, Certificate, Sha256Digest, Vote};
use batcher_types::positions::Participant;
use batcher_types::scheme::Name;
use batcher_verdicts::{
    AcceptVote, AddNetwork, Conclude, ConcludeTogether, Forward, HasCertificate, HasNullify,
    IsMissingVoter, Leader, MissingVoters, OwnRefusal, Promises, RecordCertificate, RecordVerdicts,
    Selected, SetLeader,
};
use batcher_votes::votes::Outcome;
use std::alloc::Global;

/// Takes in a vote of the peer whose key is the number.
pub fn add_network(round: &mut Round, sender: u64, vote: &FlatVote, out: &mut FlatAdmission) -> u8
    ensures { AddsNetwork round.old result round.new sender vote.now out.old out.new }
{
    let Some(typed) = vote.vote() else {
        return MALFORMED;
    };
    let call = AddNetwork {
        sender: Name(sender),
        vote: typed,
    };
    match round.call(call) {
        Ok(Some(admission)) => {
            out.write(&admission);
            DONE
        }
        Ok(None) => ELSEWHERE,
        Err(_) => OUT_OF_MEMORY,
    }
}

/// Sets the leader.
pub fn set_leader(round: &mut Round, leader: u32) -> u8
    ensures { NamesFirstLeader round.old result round.new leader }
{
    let leader = Participant(leader);
    match round.call(SetLeader { leader }) {
        Ok(()) => DONE,
        Err(_) => LEADER_CHANGED,
    }
}

/// Takes in a vote of the node's own, by the caller's verdict on it.
pub fn accept_vote(round: &mut Round, vote: &FlatVote, attests: bool, out: &mut FlatAdmission) -> u8
    requires { IsVerified (Some round.old) vote.now attests }
    ensures { AcceptsVote round.old result round.new vote.now attests out.old out.new }
{
    let Some(typed) = vote.vote() else {
        return MALFORMED;
    };
    let call = AcceptVote {
        vote: typed,
        attests: is_verified(&typed, attests, round.participants()),
    };
    match round.call(call) {
        Ok((Outcome::Added { retained }, report)) => {
            out.write_own(true, retained, &report);
            DONE
        }
        Ok((Outcome::Duplicate { retained }, report)) => {
            out.write_own(false, retained, &report);
            DONE
        }
        Ok((Outcome::Conflicting, _)) => CONFLICTING,
        Err(refusal) => refusal_code(refusal),
    }
}

/// Whether the vote attests, and its signer takes part.
pub fn is_verified(vote: &Vote<Signature, Sha256Digest>, attests: bool, participants: usize) -> bool
    ensures { result ≡ (nat_lt (attestation_of vote.now).signer.0 participants && attests) }
{
    (vote.attestation().signer.0 as usize) < participants && attests
}

// None of them says that it is done, or that the vote is malformed.
fn refusal_code(refusal: OwnRefusal) -> u8
    ensures codes { is_one_of refusals result ≡ true }
    ensures done { result ≢ DONE }
    ensures malformed { result ≢ MALFORMED }
    ensures elsewhere { (result ≡ ELSEWHERE) ↔ (refusal ≡ OwnRefusal.Elsewhere) }
    ensures not_verified { result ≡ NOT_VERIFIED → refusal ≡ OwnRefusal.NotVerified }
    ensures fault { (fault : TheFault) → fault_in result ≡ Some fault
        → refusal ≡ OwnRefusal.Fault fault }
{
    match refusal {
        OwnRefusal::Elsewhere => ELSEWHERE,
        OwnRefusal::NotVerified => NOT_VERIFIED,
        OwnRefusal::Fault(fault) => fault_code(fault),
    }
}

/// Records a certificate that the caller has verified.
pub fn record_certificate(
    round: &mut Round,
    alloc: Global,
    kind: u8,
    proposal: &FlatProposal,
    bytes: &[u8],
    selected_anew: &mut bool,
) -> u8
    requires { Certifies (Some round.old) kind proposal.now bytes.now }
    ensures { RecordsCertificate round.old result round.new kind proposal.now bytes.now
        selected_anew.old selected_anew.new }
{
    let Some(subject) = subject_of(kind, proposal) else {
        return MALFORMED;
    };
    let Ok(copied) = copied(alloc, bytes) else {
        return OUT_OF_MEMORY;
    };
    let content = Content::Received(Verified::new(round.keys(), subject, copied, true));
    let certificate = Certificate::new(subject, content);
    match round.call(RecordCertificate { certificate }) {
        Ok(Some(selected)) => {
            *selected_anew = selected;
            DONE
        }
        Ok(None) => ELSEWHERE,
        Err(_) => OUT_OF_MEMORY,
    }
}

/// The selected proposal, to hand on once.
pub fn try_forward_proposal(round: &mut Round, me: u32, out: &mut FlatProposal) -> u8
    ensures { Forwards round.old result round.new me out.old out.new }
{
    let me = Participant(me);
    match round.call(Forward { me }) {
        Some(proposal) => {
            *out = FlatProposal::of(&proposal);
            DONE
        }
        None => IDLE,
    }
}

/// The leader.
pub fn leader(round: &Round, out: &mut u32) -> u8
    ensures { AsksLeader round.now result out.old out.new }
{
    match round.ask(Leader) {
        Some(leader) => {
            *out = leader.0;
            DONE
        }
        None => IDLE,
    }
}

/// The selected proposal.
pub fn proposal(round: &Round, out: &mut FlatProposal) -> u8
    ensures { AsksProposal round.now result out.old out.new }
{
    match round.ask(Selected) {
        Some(selected) => {
            *out = FlatProposal::of(&selected);
            DONE
        }
        None => IDLE,
    }
}

/// Whether a certificate of the kind is there.
pub fn has_certificate(round: &Round, kind: u8, out: &mut bool) -> u8
    ensures { AsksCertificate round.now result kind out.old out.new }
{
    let Some(kind) = kind_of(kind) else {
        return MALFORMED;
    };
    *out = round.ask(HasCertificate { kind });
    DONE
}

/// Whether a nullify of the signer is kept in full.
pub fn has_nullify(round: &Round, signer: u32, out: &mut bool) -> u8
    ensures { AsksNullify round.now result signer out.new }
{
    let signer = Participant(signer);
    *out = round.ask(HasNullify { signer });
    DONE
}

/// Whether the participant isn't known to have the proposal's block.
pub fn is_missing_voter(
    round: &Round,
    proposal: &FlatProposal,
    participant: u32,
    out: &mut bool,
) -> u8
    ensures { AsksMissing round.now result proposal.now participant out.new }
{
    *out = round.ask(IsMissingVoter {
        proposal: proposal.proposal(),
        participant: Participant(participant),
    });
    DONE
}

/// The participants that aren't known to have the proposal's block.
pub fn missing_voters(
    round: &Round,
    proposal: &FlatProposal,
    list: &mut [u32],
    count: &mut u64,
) -> u8
    ensures { ListsMissing round.now result proposal.now list.old list.new count.old count.new }
{
    let proposal = proposal.proposal();
    match round.ask(MissingVoters { proposal }) {
        Ok(missing) => {
            *count = missing.len() as u64;
            write_signers(missing.as_slice(), list);
            drop(missing);
            DONE
        }
        Err(_) => OUT_OF_MEMORY,
    }
}

/// Records verdicts on a list, of what the next construction wants verdicts on, from the first on.
pub fn record_verdicts(
    round: &mut Round,
    alloc: Global,
    kind: u8,
    proposal: &FlatProposal,
    list: &[FlatAttestation],
    verdicts: &[bool],
) -> u8
    requires { AreVerifiedHere (Some round.old) kind proposal.now list.now verdicts.now }
    ensures { RecordsVerdicts round.old result round.new kind proposal.now list.now verdicts.now }
{
    let Some(subject) = subject_of(kind, proposal) else {
        return MALFORMED;
    };
    if verdicts.len() != list.len() {
        return MALFORMED;
    }
    let all = match attestations_of(alloc, list) {
        Ok(Some(all)) => all,
        Ok(None) => return MALFORMED,
        Err(_) => return OUT_OF_MEMORY,
    };
    if !take_part(&all, round.participants()) {
        return MALFORMED;
    }
    let call = RecordVerdicts {
        subject,
        list: &all,
        verdicts,
    };
    match round.call(call) {
        Ok(true) => DONE,
        Ok(false) => STALE,
        Err(_) => OUT_OF_MEMORY,
    }
}

/// Whether all signers are participants.
pub fn take_part(list: &[Attestation<Signature>], participants: usize) -> bool
    ensures { result ≡ list_all (λ a. nat_lt a.signer.0 participants) list.now }
{
    list.iter().all(|attestation| (attestation.signer.0 as usize) < participants)
}

/// Whether a construction among so many participants might not fit into the lists.
pub fn is_short(list: &[FlatAttestation], signers: &[u32], participants: usize) -> bool
    ensures { result ≡ is_short participants list.now signers.now }
{
    list.len() < participants || signers.len() < participants
}

/// Makes the next construction, or says on what it wants verdicts first.
pub fn try_construct(
    round: &mut Round,
    step: &mut FlatStep,
    known: &mut [FlatAttestation],
    list: &mut [FlatAttestation],
    signers: &mut [u32],
) -> u8
    ensures { Constructs round.old result round.new step.old step.new known.old known.new list.old
        list.new signers.old signers.new }
{
    // It does nothing, and its contract says what is promised.
    round.ask(Promises);
    if is_short(list, signers, round.participants()) {
        return SHORT;
    }
    match round.wanted() {
        None => IDLE,
        Some(wanted) => {
            if !wanted.pending.is_empty() {
                write_wanted(&wanted, step, known, list);
                return VERIFY;
            }
            match round.call(Conclude) {
                Ok(Some(batch)) => {
                    write_batch(&batch, step, list, signers);
                    drop(batch);
                    DONE
                }
                // Nothing is wanted, so it is made.
                Ok(None) => IDLE,
                Err(_) => OUT_OF_MEMORY,
            }
        }
    }
}

/// Makes the next construction of a quorum that the caller has verified as a whole.
pub fn construct_together(
    round: &mut Round,
    alloc: Global,
    kind: u8,
    proposal: &FlatProposal,
    list: &[FlatAttestation],
    step: &mut FlatStep,
) -> u8
    requires { PassTogether (Some round.old) kind proposal.now list.now }
    ensures { ConstructsTogether round.old result round.new kind proposal.now list.now step.old
        step.new }
{
    let Some(subject) = subject_of(kind, proposal) else {
        return MALFORMED;
    };
    let all = match attestations_of(alloc, list) {
        Ok(Some(all)) => all,
        Ok(None) => return MALFORMED,
        Err(_) => return OUT_OF_MEMORY,
    };
    let call = ConcludeTogether {
        alloc,
        subject,
        list: &all,
    };
    match round.call(call) {
        Ok(Some(batch)) => {
            write_batch(&batch, step, &mut [], &mut []);
            drop(batch);
            DONE
        }
        Ok(None) => STALE,
        Err(_) => OUT_OF_MEMORY,
    }
}
