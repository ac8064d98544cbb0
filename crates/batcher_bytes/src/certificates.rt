//! What certificates are made of.

ghost use Rattle.std.specs.Prelude.{◌≡◌, ◌==◌, ◌&&◌};
ghost use Rattle.batcher_types.specs.Votes.{same_subject};
ghost use Rattle.batcher_bytes.specs.Keys.{same_keys, same_digest};
ghost use Rattle.batcher_bytes.specs.Listings.{Passed};

use crate::signature::{Keys, Signature};
use crate::truth::Truth;
use batcher_types::messages::{Attestation, Sha256Digest, Subject};
use std::marker::{Model, PhantomData};

/// Attestations of one subject, of which `passed` says what they are. Contracts see the list, the
/// subject, and whose it is.
#[derive(Drop)]
pub struct Listed<T: Truth> {
    keys: Keys,
    participants: u32,
    subject: Subject<Sha256Digest>,
    attestations: Vec<Attestation<Signature>>,
    of: PhantomData<T>,
}

impl<T: Truth> Model for Listed<T> {
    ghost use Rattle.batcher_bytes.specs.Listings.{Listing, Passed};

    ghost Value = { Listing };

    ghost view = { λ l. record {
      keys = l.keys;
      participants = l.participants;
      subject = l.subject;
      attestations = l.attestations.items;
    } };

    ghost invariant = { λ l. Passed T.Truth (record {
      keys = l.keys;
      participants = l.participants;
      subject = l.subject;
      attestations = l.attestations.items;
    }) };
}

impl<T: Truth> Listed<T> {
    // Of a quorum of different participants, that attest each or pass as a whole.
    pub(crate) fn new(
        keys: Keys,
        participants: u32,
        subject: Subject<Sha256Digest>,
        attestations: Vec<Attestation<Signature>>,
    ) -> Self
        requires { Passed T.Truth (record {
          keys = keys;
          participants = participants;
          subject = subject;
          attestations = attestations.items;
        }) }
        ensures { result ≡ record {
          keys = keys;
          participants = participants;
          subject = subject;
          attestations = attestations.items;
        } }
    {
        Listed {
            keys,
            participants,
            subject,
            attestations,
            of: PhantomData,
        }
    }

    /// The attestations, those that were verified before first: a quorum of different participants,
    /// all of which attest the subject or pass as a whole.
    pub fn attestations(&self) -> &[Attestation<Signature>]
        ensures list { result.now ≡ self.now.attestations }
        ensures passed { Passed T.Truth self.now }
    {
        self.attestations.as_slice()
    }

    // Whether it is of the subject, and made by so many participants with these keys.
    pub(crate) fn is_for(
        &self,
        keys: Keys,
        participants: usize,
        subject: Subject<Sha256Digest>,
    ) -> bool
        ensures { result ≡ ((self.now.participants == participants)
            && (same_keys self.now.keys keys
            && same_subject same_digest subject self.now.subject)) }
    {
        self.participants as usize == participants
            && self.keys == keys
            && subject.is_same(&self.subject)
    }
}

/// A certificate from elsewhere: its bytes, and whether they are one of its subject. Contracts see
/// these, and whose it is.
#[derive(Drop)]
pub struct Verified<T: Truth> {
    keys: Keys,
    subject: Subject<Sha256Digest>,
    bytes: Vec<u8>,
    certifies: bool,
    of: PhantomData<T>,
}

impl<T: Truth> Model for Verified<T> {
    ghost use Rattle.std.specs.Prelude.{◌≡◌};
    ghost use Rattle.batcher_bytes.specs.Listings.{Received};

    ghost Value = { Received };

    ghost view = { λ v. record {
      keys = v.keys;
      subject = v.subject;
      bytes = v.bytes.items;
      certifies = v.certifies;
    } };

    ghost invariant = { λ v. T.certifies v.keys v.subject v.bytes.items ≡ v.certifies };
}

impl<T: Truth> Verified<T> {
    /// A certificate with its verdict, which is to be true.
    pub fn new(keys: Keys, subject: Subject<Sha256Digest>, bytes: Vec<u8>, certifies: bool) -> Self
        requires { T.certifies keys subject bytes.items ≡ certifies }
        ensures { result ≡ record {
          keys = keys;
          subject = subject;
          bytes = bytes.items;
          certifies = certifies;
        } }
    {
        Verified {
            keys,
            subject,
            bytes,
            certifies,
            of: PhantomData,
        }
    }

    /// Whether the bytes are a certificate of the subject, which is true.
    pub fn certifies(&self) -> bool
        ensures verdict { result ≡ self.now.certifies }
        ensures agrees { T.certifies self.now.keys self.now.subject self.now.bytes ≡ result }
    {
        self.certifies
    }

    /// The bytes.
    pub fn bytes(&self) -> &[u8]
        ensures { result.now ≡ self.now.bytes }
    {
        self.bytes.as_slice()
    }

    // Whether it certifies the subject, among participants with these keys.
    pub(crate) fn is_for(&self, keys: Keys, subject: Subject<Sha256Digest>) -> bool
        ensures { result ≡ (self.now.certifies
            && (same_keys self.now.keys keys
            && same_subject same_digest subject self.now.subject)) }
    {
        self.certifies && self.keys == keys && subject.is_same(&self.subject)
    }
}

/// What a certificate is made of.
#[derive(Drop)]
pub enum Content<T: Truth> {
    /// A round made it, of these attestations.
    Made(Listed<T>),
    /// It came from elsewhere, with its verdict.
    Received(Verified<T>),
}
