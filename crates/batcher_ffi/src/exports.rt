//! The functions of a round that C calls, and one that takes no round. Each answers a code of the
//! header.

ghost use Rattle.std.specs.Prelude.{◌≡◌, None};
ghost use Rattle.batcher_ffi.specs.Convictions.{AsksConvicted};
ghost use Rattle.batcher_ffi.specs.Rounds.{IsVerifiedBy};
ghost use Rattle.batcher_ffi.specs.Handles.{OnRound};
ghost use Rattle.batcher_ffi.specs.Rounds.{MakesRound, IsVerified, AreVerifiedHere, PassTogether};
ghost use Rattle.batcher_ffi.specs.Rounds.{Certifies, RecordsVerdicts, AddsNetwork, AcceptsVote};
ghost use Rattle.batcher_ffi.specs.Rounds.{RecordsCertificate, NamesFirstLeader, Forwards};
ghost use Rattle.batcher_ffi.specs.Rounds.{AsksLeader, AsksProposal, AsksCertificate, AsksNullify};
ghost use Rattle.batcher_ffi.specs.Rounds.{AsksMissing, ListsMissing, Constructs};
ghost use Rattle.batcher_ffi.specs.Rounds.{ConstructsTogether};

use crate::codes::{DONE, MALFORMED, NONE, OUT_OF_MEMORY};
use crate::flat::{
    FlatAdmission, FlatAttestation, FlatProposal, FlatStep, FlatVote, mode_of, round_of,
};
use crate::handle::{Round, RoundHandle};
use crate::{evidence, rounds};
use batcher_bytes::Keys;
use std::alloc::Global;

/// Does nothing. Its name has the version of the header, so that a library of another one doesn't
/// link.
#[unsafe(no_mangle)]
pub extern "C" fn batcher_abi_9() {}

/// What a round is made of.
#[repr(C)]
#[derive(Clone, Copy)]
pub struct RoundOptions {
    pub epoch: u64,
    pub view: u64,
    /// How many participants there are, whose names are 0, 1, .. in this order.
    pub participants: u32,
    /// Bytes that distinguish their list of keys from other lists, as its hash does.
    pub keys: [u8; 32],
    pub mode: u8,
    pub batchable: bool,
}

/// Makes a round in which nothing has happened. The handle's earlier one is freed.
#[unsafe(no_mangle)]
pub extern "C" fn batcher_round_new(
    round: &mut RoundHandle,
    alloc: Global,
    options: &RoundOptions,
) -> u8
    ensures { MakesRound round.old.value round.new.value result options.now.epoch options.now.view
        options.now.participants options.now.mode options.now.keys options.now.batchable }
{
    let Some(mode) = mode_of(options.mode) else {
        return MALFORMED;
    };
    let number = round_of(options.epoch, options.view);
    let keys = Keys(options.keys);
    match Round::new(
        alloc,
        number,
        options.participants,
        keys,
        mode,
        options.batchable,
    ) {
        Ok(Some(made)) => match Box::new(alloc, made) {
            Ok(made) => {
                round.put(made);
                DONE
            }
            Err(_) => OUT_OF_MEMORY,
        },
        Ok(None) => MALFORMED,
        Err(_) => OUT_OF_MEMORY,
    }
}

/// Frees the round, if there is one, and leaves the handle empty.
#[unsafe(no_mangle)]
pub extern "C" fn batcher_round_free(round: &mut RoundHandle, alloc: Global)
    ensures { round.new.value ≡ None }
{
    drop(round.take(alloc));
}

/// Takes in a vote of a peer, whose key is the number of its sender.
#[unsafe(no_mangle)]
pub extern "C" fn batcher_round_add_network(
    round: &mut RoundHandle,
    sender: u64,
    vote: &FlatVote,
    out: &mut FlatAdmission,
) -> u8
    ensures { OnRound round.old.value round.new.value result (out.new ≡ out.old) (λ before after.
        AddsNetwork before result after sender vote.now out.old out.new) }
{
    let Some(round) = round.as_mut() else {
        return NONE;
    };
    rounds::add_network(round, sender, vote, out)
}

/// Takes in a vote of the node's own, by the caller's verdict on it.
#[unsafe(no_mangle)]
pub extern "C" fn batcher_round_accept_vote(
    round: &mut RoundHandle,
    vote: &FlatVote,
    attests: bool,
    out: &mut FlatAdmission,
) -> u8
    requires { IsVerified round.old.value vote.now attests }
    ensures { OnRound round.old.value round.new.value result (out.new ≡ out.old) (λ before after.
        AcceptsVote before result after vote.now attests out.old out.new) }
{
    let Some(round) = round.as_mut() else {
        return NONE;
    };
    rounds::accept_vote(round, vote, attests, out)
}

/// Records a certificate that the caller has verified, as its bytes.
#[unsafe(no_mangle)]
pub extern "C" fn batcher_round_record_certificate(
    round: &mut RoundHandle,
    alloc: Global,
    kind: u8,
    proposal: &FlatProposal,
    bytes: &[u8],
    selected_anew: &mut bool,
) -> u8
    requires { Certifies round.old.value kind proposal.now bytes.now }
    ensures { OnRound round.old.value round.new.value result
        (selected_anew.new ≡ selected_anew.old) (λ before after.
        RecordsCertificate before result after kind proposal.now bytes.now selected_anew.old
        selected_anew.new) }
{
    let Some(round) = round.as_mut() else {
        return NONE;
    };
    rounds::record_certificate(round, alloc, kind, proposal, bytes, selected_anew)
}

/// Records verdicts on a list, of what the next construction wants verdicts on, from the first on.
#[unsafe(no_mangle)]
pub extern "C" fn batcher_round_record_verdicts(
    round: &mut RoundHandle,
    alloc: Global,
    kind: u8,
    proposal: &FlatProposal,
    list: &[FlatAttestation],
    verdicts: &[bool],
) -> u8
    requires { AreVerifiedHere round.old.value kind proposal.now list.now verdicts.now }
    ensures { OnRound round.old.value round.new.value result (Unit {0}) (λ before after.
        RecordsVerdicts before result after kind proposal.now list.now verdicts.now) }
{
    let Some(round) = round.as_mut() else {
        return NONE;
    };
    rounds::record_verdicts(round, alloc, kind, proposal, list, verdicts)
}

/// Sets the leader.
#[unsafe(no_mangle)]
pub extern "C" fn batcher_round_set_leader(round: &mut RoundHandle, leader: u32) -> u8
    ensures { OnRound round.old.value round.new.value result (Unit {0}) (λ before after.
        NamesFirstLeader before result after leader) }
{
    let Some(round) = round.as_mut() else {
        return NONE;
    };
    rounds::set_leader(round, leader)
}

/// The leader, once it is set.
#[unsafe(no_mangle)]
pub extern "C" fn batcher_round_leader(round: &mut RoundHandle, out: &mut u32) -> u8
    ensures { OnRound round.old.value round.new.value result (out.new ≡ out.old) (λ before after.
        (after ≡ before) × AsksLeader before result out.old out.new) }
{
    let Some(round) = round.as_mut() else {
        return NONE;
    };
    rounds::leader(round, out)
}

/// The selected proposal: the leader's, or one that evidence fixed.
#[unsafe(no_mangle)]
pub extern "C" fn batcher_round_proposal(round: &mut RoundHandle, out: &mut FlatProposal) -> u8
    ensures { OnRound round.old.value round.new.value result (out.new ≡ out.old) (λ before after.
        (after ≡ before) × AsksProposal before result out.old out.new) }
{
    let Some(round) = round.as_mut() else {
        return NONE;
    };
    rounds::proposal(round, out)
}

/// The selected proposal, to hand on: once at most, and not where the known leader is `me`.
#[unsafe(no_mangle)]
pub extern "C" fn batcher_round_try_forward_proposal(
    round: &mut RoundHandle,
    me: u32,
    out: &mut FlatProposal,
) -> u8
    ensures { OnRound round.old.value round.new.value result (out.new ≡ out.old) (λ before after.
        Forwards before result after me out.old out.new) }
{
    let Some(round) = round.as_mut() else {
        return NONE;
    };
    rounds::try_forward_proposal(round, me, out)
}

/// Whether a certificate of the kind is there.
#[unsafe(no_mangle)]
pub extern "C" fn batcher_round_has_certificate(
    round: &mut RoundHandle,
    kind: u8,
    out: &mut bool,
) -> u8
    ensures { OnRound round.old.value round.new.value result (out.new ≡ out.old) (λ before after.
        (after ≡ before) × AsksCertificate before result kind out.old out.new) }
{
    let Some(round) = round.as_mut() else {
        return NONE;
    };
    rounds::has_certificate(round, kind, out)
}

/// Whether a nullify of the signer is kept in full.
#[unsafe(no_mangle)]
pub extern "C" fn batcher_round_has_nullify(
    round: &mut RoundHandle,
    signer: u32,
    out: &mut bool,
) -> u8
    ensures { OnRound round.old.value round.new.value result (out.new ≡ out.old) (λ before after.
        (after ≡ before) × AsksNullify before result signer out.new) }
{
    let Some(round) = round.as_mut() else {
        return NONE;
    };
    rounds::has_nullify(round, signer, out)
}

/// Whether the participant isn't known to have the proposal's block.
#[unsafe(no_mangle)]
pub extern "C" fn batcher_round_is_missing_voter(
    round: &mut RoundHandle,
    proposal: &FlatProposal,
    participant: u32,
    out: &mut bool,
) -> u8
    ensures { OnRound round.old.value round.new.value result (out.new ≡ out.old) (λ before after.
        (after ≡ before) × AsksMissing before result proposal.now participant out.new) }
{
    let Some(round) = round.as_mut() else {
        return NONE;
    };
    rounds::is_missing_voter(round, proposal, participant, out)
}

/// The participants that aren't known to have the proposal's block, in ascending order.
#[unsafe(no_mangle)]
pub extern "C" fn batcher_round_missing_voters(
    round: &mut RoundHandle,
    proposal: &FlatProposal,
    list: &mut [u32],
    count: &mut u64,
) -> u8
    ensures { OnRound round.old.value round.new.value result
        ((list.new ≡ list.old) × (count.new ≡ count.old)) (λ before after.
        (after ≡ before)
        × ListsMissing before result proposal.now list.old list.new count.old count.new) }
{
    let Some(round) = round.as_mut() else {
        return NONE;
    };
    rounds::missing_voters(round, proposal, list, count)
}

/// Makes the next construction, or says on what it wants verdicts first.
#[unsafe(no_mangle)]
pub extern "C" fn batcher_round_try_construct(
    round: &mut RoundHandle,
    out: &mut FlatStep,
    known: &mut [FlatAttestation],
    list: &mut [FlatAttestation],
    signers: &mut [u32],
) -> u8
    ensures { OnRound round.old.value round.new.value result ((out.new ≡ out.old)
        × ((known.new ≡ known.old) × ((list.new ≡ list.old) × (signers.new ≡ signers.old))))
        (λ before after. Constructs before result after out.old out.new known.old known.new list.old
        list.new signers.old signers.new) }
{
    let Some(round) = round.as_mut() else {
        return NONE;
    };
    rounds::try_construct(round, out, known, list, signers)
}

/// Makes the next construction of a quorum that the caller has verified as a whole.
#[unsafe(no_mangle)]
pub extern "C" fn batcher_round_construct_together(
    round: &mut RoundHandle,
    alloc: Global,
    kind: u8,
    proposal: &FlatProposal,
    list: &[FlatAttestation],
    out: &mut FlatStep,
) -> u8
    requires { PassTogether round.old.value kind proposal.now list.now }
    ensures { OnRound round.old.value round.new.value result (out.new ≡ out.old) (λ before after.
        ConstructsTogether before result after kind proposal.now list.now out.old out.new) }
{
    let Some(round) = round.as_mut() else {
        return NONE;
    };
    rounds::construct_together(round, alloc, kind, proposal, list, out)
}

/// Whether two votes convict their signer, among so many participants with these keys.
#[unsafe(no_mangle)]
pub extern "C" fn batcher_convicted(
    participants: u32,
    keys: &[u8; 32],
    first: &FlatVote,
    second: &FlatVote,
    first_attests: bool,
    second_attests: bool,
    out: &mut u32,
) -> u8
    requires first { IsVerifiedBy (record { 0 = keys.now }) first.now first_attests }
    requires second { IsVerifiedBy (record { 0 = keys.now }) second.now second_attests }
    ensures { AsksConvicted result participants (record { 0 = keys.now }) first.now second.now
        out.old out.new }
{
    let own = *keys;
    let keys = Keys(own);
    evidence::convicted(
        participants,
        keys,
        first,
        second,
        first_attests,
        second_attests,
        out,
    )
}
