//! Certificates as bytes that are kept with their verdicts.

ghost use Rattle.std.specs.Prelude.{◌≡◌, ◌&&◌};
ghost use Rattle.batcher_types.specs.Votes.{same_subject};
ghost use Rattle.batcher_bytes.specs.Keys.{same_digest};

use batcher_types::messages::{Sha256Digest, Subject};
use std::marker::Model;

/// A certificate as bytes, with the verdict that somebody had on it. So it can be kept on a disk
/// and read again, where nobody is asked a second time.
#[derive(Drop)]
pub struct Proof {
    subject: Subject<Sha256Digest>,
    certifies: bool,
    bytes: Vec<u8>,
}

impl Model for Proof {
    ghost use Rattle.batcher_bytes.specs.Encodings.{ProofView};

    ghost Value = { ProofView };

    ghost view = { λ p. record {
      subject = p.subject;
      certifies = p.certifies;
      bytes = p.bytes.items;
    } };
}

impl Proof {
    /// Bytes from elsewhere, with whether they are a certificate of the subject.
    pub fn new(subject: Subject<Sha256Digest>, certifies: bool, bytes: Vec<u8>) -> Self
        ensures { result ≡ record {
          subject = subject;
          certifies = certifies;
          bytes = bytes.items;
        } }
    {
        Proof {
            subject,
            certifies,
            bytes,
        }
    }

    /// What it is a certificate of, if it is one.
    pub fn subject(&self) -> Subject<Sha256Digest>
        ensures { result ≡ self.now.subject }
    {
        self.subject
    }

    /// Whether it is one.
    pub fn certifies(&self) -> bool
        ensures { result ≡ self.now.certifies }
    {
        self.certifies
    }

    /// The bytes: of one that a round made, the list of its attestations.
    pub fn bytes(&self) -> &[u8]
        ensures { result.now ≡ self.now.bytes }
    {
        self.bytes.as_slice()
    }

    // Whether it certifies the subject.
    pub(crate) fn is_for(&self, subject: Subject<Sha256Digest>) -> bool
        ensures { result
            ≡ (self.now.certifies && same_subject same_digest subject self.now.subject) }
    {
        self.certifies && subject.is_same(&self.subject)
    }
}
