//! What a validator gives to be done, as it crosses to C.

ghost use Rattle.std.specs.Prelude.{◌≡◌, Some};
ghost use Rattle.batcher_ffi.specs.Tasks.{IsProposedIn, OthersStay, task_in};

use crate::codes::{
    TASK_BLOCK, TASK_CAST, TASK_ENTER, TASK_FINAL, TASK_FORWARD, TASK_JUDGE, TASK_PROPOSE,
    TASK_SEND_CERTIFICATE, TASK_SEND_VOTE, TASK_SIGN, TASK_VERIFY,
};
use crate::flat::{FlatProposal, FlatVote, cause_code, flat_subject, kind_code};
use batcher_bytes::Signature;
use batcher_types::messages::Sha256Digest;
use batcher_types::positions::{Epoch, Round};
use batcher_validator::Task;

/// What is to be done. What its task doesn't say stays as it was.
#[repr(C)]
#[derive(Clone, Copy)]
pub struct FlatTask {
    /// The vote to cast again or to send.
    pub vote: FlatVote,
    /// The proposal that is final, or to be judged, or to be made; what is to be signed; the round
    /// of the certificate that is to be sent, or whose payload is to be forwarded; the view to
    /// enter.
    pub proposal: FlatProposal,
    /// The participant to block.
    pub participant: u32,
    /// What it is, by `TASK_BLOCK` and so on.
    pub task: u8,
    /// The kind of what is to be signed, or of the certificate.
    pub kind: u8,
    /// Why the participant is to be blocked.
    pub cause: u8,
}

impl FlatTask {
    /// Writes a task of a validator in this epoch.
    pub fn write(&mut self, task: &Task<Signature, Sha256Digest>, epoch: Epoch)
        ensures task { task_in self.new ≡ Some task.now }
        ensures others { OthersStay task.now self.old self.new }
        ensures proposed { IsProposedIn epoch self.new }
    {
        match task {
            Task::Block(who, cause) => {
                self.task = TASK_BLOCK;
                self.participant = who.0;
                self.cause = cause_code(Some(*cause));
            }
            Task::Final(proposal) => {
                self.task = TASK_FINAL;
                self.proposal = FlatProposal::of(proposal);
            }
            Task::Cast(vote) => {
                self.task = TASK_CAST;
                self.vote.write(vote);
            }
            Task::SendVote(vote) => {
                self.task = TASK_SEND_VOTE;
                self.vote.write(vote);
            }
            Task::SendCertificate(kind, round) => {
                self.task = TASK_SEND_CERTIFICATE;
                self.kind = kind_code(*kind);
                self.proposal = FlatProposal::of_round(*round);
            }
            Task::Enter(view) => {
                self.task = TASK_ENTER;
                self.proposal = FlatProposal::of_round(Round::new(epoch, *view));
            }
            Task::Verify => self.task = TASK_VERIFY,
            Task::Sign(subject) => {
                let (kind, proposal) = flat_subject(subject);
                self.task = TASK_SIGN;
                self.kind = kind;
                self.proposal = proposal;
            }
            Task::Propose { view, parent } => {
                self.task = TASK_PROPOSE;
                self.proposal = FlatProposal::of_round(Round::new(epoch, *view));
                self.proposal.parent = parent.0;
            }
            Task::Judge(proposal) => {
                self.task = TASK_JUDGE;
                self.proposal = FlatProposal::of(proposal);
            }
            Task::Forward(round) => {
                self.task = TASK_FORWARD;
                self.proposal = FlatProposal::of_round(*round);
            }
        }
    }
}
