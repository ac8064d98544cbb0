//! The codes of the header's enums, by the same names.

/// It is done; of a construction, that a batch was made.
pub const DONE: u8 = 0;
/// The handle is empty.
pub const NONE: u8 = 1;
/// A code or a length that means nothing, no participant, too many of them or of views ahead, a
/// signer that takes no part, or a list of verdicts that isn't as long as that of attestations.
pub const MALFORMED: u8 = 2;
/// It is of another round.
pub const ELSEWHERE: u8 = 3;
/// Memory was refused, and all is as it was.
pub const OUT_OF_MEMORY: u8 = 4;
/// Another leader was named before.
pub const LEADER_CHANGED: u8 = 5;
/// An own vote that doesn't attest, or whose signer takes no part.
pub const NOT_VERIFIED: u8 = 6;
/// A notarize of its signer is kept.
pub const DUPLICATE_NOTARIZE: u8 = 7;
/// A finalize of its signer is kept.
pub const DUPLICATE_FINALIZE: u8 = 8;
/// An earlier vote of its kind and signer isn't kept, and only one is for the selected proposal.
pub const CONFLICTING: u8 = 9;
/// Its signer has finalized before.
pub const NULLIFY_AFTER_FINALIZE: u8 = 10;
/// Its signer has nullified before.
pub const FINALIZE_AFTER_NULLIFY: u8 = 11;
/// Nothing is to be done, or there is none.
pub const IDLE: u8 = 12;
/// Verdicts are wanted on the attestations of the list.
pub const VERIFY: u8 = 13;
/// The subject or the list isn't what the next construction is about, or asks about first.
pub const STALE: u8 = 14;
/// It is of a peer that was blocked before, so it wasn't looked at.
pub const DROPPED: u8 = 15;
/// It is of a peer or a leader that takes no part, so it wasn't looked at.
pub const UNKNOWN: u8 = 16;
/// The view is before the finalized one.
pub const PASSED: u8 = 17;
/// There was one of its kind before, so it isn't to be sent, or wasn't looked at.
pub const KNOWN: u8 = 18;
/// A certificate doesn't certify what it names, and its peer is blocked.
pub const FORGED: u8 = 19;
/// A list has fewer places than there are participants, so a construction might not fit, or a room
/// fewer than there are bytes. Nothing changed.
pub const SHORT: u8 = 20;
/// The bytes that are owed are to be written first.
pub const WRITE: u8 = 21;
/// The journal has no room left.
pub const FULL: u8 = 22;
/// The journal is closed: start the validator again.
pub const CLOSED: u8 = 23;
/// An own vote that is signed by another participant.
pub const NOT_OWN: u8 = 24;
/// The subject of an own vote was signed before, by other bytes.
pub const SIGNED: u8 = 25;
/// A rule of voting refuses an own vote.
pub const REFUSED: u8 = 26;
/// The disk has no bytes, so there is nothing to start by.
pub const NOT_BEGUN: u8 = 27;
/// The disk has bytes, so nothing is begun.
pub const BEGUN: u8 = 28;
/// What is on the disk is of another version of this library.
pub const OTHER_VERSION: u8 = 29;
/// What is on the disk is of another participant, other keys, another epoch or another namespace.
pub const OTHER_OWNER: u8 = 30;
/// What is on the disk is no journal, or has what no validator wrote.
pub const DAMAGED: u8 = 31;
/// What is to be done to the files already is to be done first.
pub const UNFINISHED: u8 = 32;
/// It waits until the disk has all that was done.
pub const NOT_WRITTEN: u8 = 33;
/// No write is under way by this number.
pub const NOT_GIVEN: u8 = 34;

/// Kinds of votes and certificates.
pub const NOTARIZATION: u8 = 0;

pub const NULLIFICATION: u8 = 1;

pub const FINALIZATION: u8 = 2;

/// How a round keeps its votes.
pub const RETAINING: u8 = 0;

pub const RELEASING: u8 = 1;

pub const SKIPPED: u8 = 2;

/// Why a sender is to be blocked, if it is.
pub const BLOCK_NONE: u8 = 0;

pub const BLOCK_UNKNOWN_PARTICIPANT: u8 = 1;

pub const BLOCK_NOTARIZE_SIGNER_MISMATCH: u8 = 2;

pub const BLOCK_NULLIFY_SIGNER_MISMATCH: u8 = 3;

pub const BLOCK_FINALIZE_SIGNER_MISMATCH: u8 = 4;

pub const BLOCK_CONFLICTING_NOTARIZE: u8 = 5;

pub const BLOCK_CONFLICTING_NULLIFY: u8 = 6;

pub const BLOCK_CONFLICTING_FINALIZE: u8 = 7;

pub const BLOCK_INVALID_SIGNATURE: u8 = 8;

pub const BLOCK_NULLIFY_AFTER_FINALIZE: u8 = 9;

pub const BLOCK_FINALIZE_AFTER_NULLIFY: u8 = 10;

/// Why a validator blocks a participant, if it does: for a vote, by the codes above, or for one of
/// these, which leave room for more reasons.
pub const CAUSE_NONE: u8 = 0;

pub const CAUSE_CERTIFICATE: u8 = 64;

pub const CAUSE_SIGNATURE: u8 = 65;

/// What a report is of, if there is one.
pub const REPORT_NONE: u8 = 0;

pub const REPORT_NOTARIZE: u8 = 1;

pub const REPORT_NULLIFY: u8 = 2;

pub const REPORT_FINALIZE: u8 = 3;

pub const REPORT_CONFLICTING_NOTARIZE: u8 = 4;

pub const REPORT_CONFLICTING_FINALIZE: u8 = 5;

pub const REPORT_NULLIFY_FINALIZE: u8 = 6;

/// What a validator gives to be done.
pub const TASK_BLOCK: u8 = 0;

pub const TASK_FINAL: u8 = 1;

pub const TASK_CAST: u8 = 2;

pub const TASK_SEND_VOTE: u8 = 3;

pub const TASK_SEND_CERTIFICATE: u8 = 4;

pub const TASK_ENTER: u8 = 5;

pub const TASK_VERIFY: u8 = 6;

pub const TASK_SIGN: u8 = 7;

pub const TASK_PROPOSE: u8 = 8;

pub const TASK_JUDGE: u8 = 9;

pub const TASK_FORWARD: u8 = 10;

/// What is to be done to a file.
pub const CHANGE_FRAME: u8 = 0;

pub const CHANGE_BYTE: u8 = 1;

pub const CHANGE_LENGTH: u8 = 2;
