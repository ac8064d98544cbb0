//! What is true of what is verified elsewhere.

/// What is true of attestations and certificates. A type that has it has no code, so what is proved
/// of all such types holds whatever the truth is.
///
/// Each question says of which participants it is asked, by their keys. An attestation of an
/// aggregated scheme may pass beside others as a whole although it doesn't attest by itself.
pub trait Truth {
    ghost use Rattle.std.specs.Prelude.{ℕ, Bool, List};
    ghost use Rattle.batcher_types.specs.declared.messages.Attestation.{Attestation};
    ghost use Rattle.batcher_types.specs.declared.messages.Sha256Digest.{Sha256Digest};
    ghost use Rattle.batcher_types.specs.declared.messages.Subject.{Subject};
    ghost use Rattle.batcher_bytes.specs.declared.signature.Signature.{Signature};
    ghost use Rattle.batcher_bytes.specs.declared.signature.Keys.{Keys};

    // whether the attestation of a participant attests the subject
    ghost attests: { Keys → Subject Sha256Digest → Attestation Signature → Bool };

    // whether these attestations, a quorum, pass as a whole
    ghost passes: { Keys → Subject Sha256Digest → List (Attestation Signature) → Bool };

    // whether the bytes are a certificate of the subject
    ghost certifies: { Keys → Subject Sha256Digest → List ℕ → Bool };
}
