//! The scheme whose certificates list their attestations is accountable.

ghost use Rattle.std.specs.Prelude.{◌≡◌};

use crate::Accountable;
use batcher::messages::{Attestation, Sha256Digest};
use batcher::scheme::{AttestationList, Keyed};

impl<const BATCHABLE: bool> Accountable<Sha256Digest> for Keyed<BATCHABLE> {
    ghost use Rattle.std.specs.Prelude.{length};
    ghost use Rattle.batcher_evidence.specs.SignerLists.{listed_shows};

    ghost shown = { λ c. c };

    ghost shows = { λ s subject c h.
        let l = listed_shows (length s.participants) s.root subject c h in
        record {
          some = l.some;
          quorum = l.quorum;
          ascending = l.ascending;
          attested = l.attested;
        } };

    fn attestations<'a>(&self, certificate: &'a AttestationList) -> &'a [Attestation<[u8; 32]>] {
        certificate.attestations()
    }
}
