//! Certificates from elsewhere, as bytes with a verdict.

ghost use Rattle.std.specs.Prelude.{◌≡◌};
ghost use Rattle.batcher_judge.specs.Marks.{is_certificate};

use crate::play::{TheRound, TheScheme};
use anyhow::{Result, bail};
use batcher::messages::{Certificate, Kind, Sha256Digest, Subject};
use batcher::scheme::Scheme;
use batcher_bytes::{Content, Keys, Verified};
use std::alloc::Global;

/// Nullifications of three marks each, of sevens and of eights. The round is given those alone that
/// certify by the keys.
pub fn play_certificates(
    rt: &impl Print,
    alloc: Global,
    round: &mut TheRound,
    scheme: &TheScheme,
) -> Result<()> {
    for mark in 7..9 {
        let subject = Subject::Nullify {
            round: round.number(),
        };
        let bytes = Vec::from_slice(alloc, &[mark; 3])?;
        let verdict = certifies(scheme.keys, subject, bytes.as_slice());
        let content = Content::Received(Verified::new(scheme.keys, subject, bytes, verdict));
        let certificate = Certificate::new(subject, content);
        let holds = scheme.verify_certificate(subject, certificate.content());
        println!(rt; "a nullification of {mark}s: certifies {holds}")?;
        if !holds {
            continue;
        }
        if !round.belongs_certificate(&certificate) {
            bail!("the certificate is of this round");
        }
        round.record_certificate(&certificate)?;
    }
    let has = round.has_certificate(Kind::Nullification);
    println!(rt; "the round has a nullification: {has}")?;
    Ok(())
}

fn certifies(keys: Keys, subject: Subject<Sha256Digest>, bytes: &[u8]) -> bool
    ensures { result ≡ is_certificate keys subject bytes.now }
{
    // Marks are of no subject.
    let _ = subject;
    bytes.iter().all(|byte| *byte == keys.0[0])
}
