//! The test schemes, and one that is written outside the library.

use super::*;
use batcher::scheme::Sealed;
use batcher_example::Trusting;

fn hex(alloc: Global, bytes: &[u8]) -> Result<String, Fail> {
    let mut text = String::new(alloc);
    for byte in bytes {
        write!(text, "{byte:02x}")?;
    }
    Ok(text)
}

// The expected bytes were hashed by another program, from the format alone.
fn hashes(rt: &impl Abort, alloc: Global, scheme: &Keyed<true>) -> Result<(), Fail> {
    let round = number();
    let nullify = scheme.sign(Participant::new(2), Subject::Nullify { round });
    assert_eq!(rt;
        hex(alloc, &nullify.signature)?.as_str(),
        "8f6a3a3d62740af5b524c5ac0457ae665c6bfd60bc1f2df813a9ca4310ef470c"
    );
    let round = positions::Round::new(Epoch::new(333), View::new(7));
    let proposal = Proposal::new(round, View::new(6), Sha256Digest([4; 32]));
    let notarize = scheme.sign(Participant::new(1), Subject::Notarize { proposal });
    assert_eq!(rt;
        hex(alloc, &notarize.signature)?.as_str(),
        "18e991f8e83edc733706f03c317d9a08962d418414be34fbebe31dafcd0923bc"
    );
    let finalize = scheme.sign(Participant::new(9), Subject::Finalize { proposal });
    assert_eq!(rt;
        hex(alloc, &finalize.signature)?.as_str(),
        "86470c46ac43b93614f623924a8be74607b7ce6f8c492c1760fabc97593bcfb1"
    );
    Ok(())
}

#[test]
fn signatures_hash_what_the_format_says(rt: HostRuntime) -> Result<(), Fail> {
    let scheme = keyed(rt.alloc(), 4)?;
    let hashed = hashes(&rt, rt.alloc(), &scheme);
    drop(scheme);
    hashed
}

// What a round of any scheme makes of the attestations, each sent by its signer.
fn batch_in<S: Scheme<Digest, PublicKey = Name>>(
    rt: &impl Abort,
    round: &mut Round<S, Digest>,
    attestations: &[Attestation<S::Signature>],
) -> Result<Batch<Certificate<S::Certificate, Digest>>, Fail> {
    for attestation in attestations {
        let vote = Vote::Nullify(Nullify {
            round: number(),
            attestation: *attestation,
        });
        assert!(rt; bring(rt, round, vote)?);
    }
    Ok(construct(round)?.ok_or("no kind was ready")?)
}

fn batch_of<S: Scheme<Digest, PublicKey = Name>>(
    rt: &impl Abort,
    alloc: Global,
    scheme: Rc<S>,
    attestations: &[Attestation<S::Signature>],
) -> Result<Batch<Certificate<S::Certificate, Digest>>, Fail> {
    assert!(rt; scheme.participants().len() >= 1);
    let mut round = Round::new(alloc, number(), scheme, true);
    let batch = batch_in(rt, &mut round, attestations);
    drop(round);
    batch
}

// The content of a nullification.
fn content<C>(certificate: Option<Certificate<C, Digest>>) -> Option<C>
where
    C: Drop,
{
    match certificate {
        Some(Certificate::Nullification(nullification)) => Some(nullification.certificate),
        Some(Certificate::Notarization(_) | Certificate::Finalization(_)) | None => None,
    }
}

// Three good nullifies, and then a bad one.
fn with_a_bad_one(scheme: &Keyed<true>) -> [Attestation<[u8; 32]>; 4] {
    [
        nullify(scheme, 2, true).attestation,
        nullify(scheme, 0, true).attestation,
        nullify(scheme, 1, true).attestation,
        nullify(scheme, 3, false).attestation,
    ]
}

// Whether the attestations certify a nullification.
fn certifies(
    alloc: Global,
    scheme: &Keyed<true>,
    attestations: &[Attestation<[u8; 32]>],
) -> Result<bool, AllocError> {
    let certificate = AttestationList::new(Vec::from_slice(alloc, attestations)?);
    let subject = Subject::Nullify { round: number() };
    Ok(scheme.verify_certificate(subject, &certificate))
}

#[test]
fn a_list_certifies_in_order_with_a_quorum_of_good_votes(rt: HostRuntime) -> Result<(), Fail> {
    let scheme = keyed(rt.alloc(), 4)?;
    let [two, zero, one, bad] = with_a_bad_one(&scheme);
    for (list, certified) in [
        ([zero, one, two], true),
        ([two, zero, one], false),
        ([zero, one, one], false),
        ([zero, one, bad], false),
    ] {
        assert_eq!(rt; certifies(rt.alloc(), &scheme, &list)?, certified);
    }
    assert!(rt; !certifies(rt.alloc(), &scheme, &[zero, one])?);
    Ok(())
}

#[test]
fn a_list_names_who_signed_in_order(rt: HostRuntime) -> Result<(), Fail> {
    let alloc = rt.alloc();
    let scheme = Rc::new(alloc, keyed(alloc, 4)?)?;
    let votes = with_a_bad_one(&scheme);
    let batch = batch_of(&rt, alloc, scheme, &votes)?;
    assert_eq!(rt; batch.processed, 4);
    assert_eq!(rt; batch.invalid.as_slice(), [Participant::new(3)].as_slice());
    assert!(rt; batch.fallback);
    let certificate = content(batch.certificate).ok_or("no certificate")?;
    let listed = [votes[1], votes[2], votes[0]];
    assert_eq!(rt; certificate.attestations(), listed.as_slice());
    Ok(())
}

// Whether the bytes certify a nullification and a notarization.
fn seals(alloc: Global, certificate: &[u8; 32]) -> Result<[bool; 2], AllocError> {
    let scheme = Sealed::new(names(alloc, 4)?, ROOT);
    let nullify = Subject::Nullify { round: number() };
    let notarize = Subject::Notarize {
        proposal: proposal(1),
    };
    Ok([
        scheme.verify_certificate(nullify, certificate),
        scheme.verify_certificate(notarize, certificate),
    ])
}

#[test]
fn a_seal_is_given_although_a_vote_is_bad(rt: HostRuntime) -> Result<(), Fail> {
    let alloc = rt.alloc();
    let votes = with_a_bad_one(&keyed(alloc, 4)?);
    let scheme = Rc::new(alloc, Sealed::new(names(alloc, 4)?, ROOT))?;
    let batch = batch_of(&rt, alloc, scheme, &votes)?;
    assert_eq!(rt; batch.processed, 4);
    assert!(rt; batch.invalid.as_slice().is_empty());
    assert!(rt; !batch.fallback);
    let certificate = content(batch.certificate).ok_or("no certificate")?;
    assert_eq!(rt;
        hex(alloc, &certificate)?.as_str(),
        "fadd42ccbd58089292517bef7eee91f9c3eb8f96d29cb08e2a9811d432a46c31"
    );
    assert_eq!(rt; seals(alloc, &certificate)?, [true, false]);
    Ok(())
}

#[test]
fn sealed_votes_are_signed_as_keyed_ones(rt: HostRuntime) -> Result<(), Fail> {
    let sealed = Sealed::new(names(rt.alloc(), 4)?, ROOT);
    let subject = Subject::Nullify { round: number() };
    assert_eq!(rt;
        sealed.sign(Participant::new(2), subject),
        nullify(&keyed(rt.alloc(), 4)?, 2, true).attestation
    );
    Ok(())
}

#[test]
fn a_scheme_that_is_not_batchable_verifies_each_vote_at_once(rt: HostRuntime) -> Result<(), Fail> {
    let alloc = rt.alloc();
    let votes = with_a_bad_one(&keyed(alloc, 5)?);
    let scheme: Keyed<false> = Keyed::new(names(alloc, 5)?, ROOT);
    let batch = batch_of(&rt, alloc, Rc::new(alloc, scheme)?, &votes[..1])?;
    assert_eq!(rt; batch.processed, 1);
    assert!(rt; batch.invalid.as_slice().is_empty());
    assert!(rt; batch.certificate.is_none());
    assert!(rt; !batch.fallback);
    Ok(())
}

#[test]
fn a_scheme_of_ones_own_drives_a_round(rt: HostRuntime) -> Result<(), Fail> {
    let alloc = rt.alloc();
    let scheme = Rc::new(
        alloc,
        Trusting {
            participants: names(alloc, 2)?,
        },
    )?;
    let votes = [
        Attestation {
            signer: Participant::new(0),
            signature: true,
        },
        Attestation {
            signer: Participant::new(1),
            signature: false,
        },
    ];
    let batch = batch_of(&rt, alloc, scheme, &votes)?;
    assert_eq!(rt; batch.processed, 2);
    assert!(rt; batch.certificate.is_some());
    Ok(())
}
