//! Decodes bytes: a line of input names a kind of message and has its bytes in hexadecimal, and a
//! line of output says what they are, or why they are none. docs/FORMATS.md has the texts.
//!
//! With an argument it says on standard error that it has decoded each, for who counts its memory.
#![tactic(auto)]

mod text;

use crate::text::{Text, fault_of};
use anyhow::{Result, bail};
use batcher_bytes::{DecodeError, SigningBytes, decode, decode_owned};
use batcher_types::messages::{Activity, Certificate, Sha256Digest, Subject, Vote};
use batcher_types::scheme::AttestationList;
use std::alloc::Global;
use std::env;

fn main(rt: HostRuntime) -> Result<()> {
    let alloc = rt.alloc();
    let is_counted = env::args(&rt)?.len() > 1;
    for line in rt.lines(alloc) {
        let line = line?;
        let Some((kind, digits)) = line.as_str().split_once(' ') else {
            bail!("a line is a kind and bytes");
        };
        let bytes = hex::decode(alloc, digits)?;
        let text = text_of(alloc, kind, bytes.as_slice())?;
        if is_counted {
            eprintln!(rt; "decoded")?;
        }
        println!(rt; "{text}")?;
    }
    Ok(())
}

// What bytes of a kind are.
fn text_of(alloc: Global, kind: &str, bytes: &[u8]) -> Result<String> {
    let mut text = String::new(alloc);
    match kind {
        "subject" => match decode::<Subject<Sha256Digest>>(bytes) {
            Ok(subject) => subject.write(&mut text)?,
            Err(fault) => text.push_str(fault_of(fault))?,
        },
        "vote" => match decode::<Vote<[u8; 64], Sha256Digest>>(bytes) {
            Ok(vote) => vote.write(&mut text)?,
            Err(fault) => text.push_str(fault_of(fault))?,
        },
        "evidence" => match decode::<Activity<[u8; 64], Sha256Digest>>(bytes) {
            Ok(activity) => activity.write(&mut text)?,
            Err(fault) => text.push_str(fault_of(fault))?,
        },
        "certificate" => match decode_owned::<Certificate<AttestationList, Sha256Digest>>(
            alloc, bytes,
        ) {
            Ok(certificate) => certificate.write(&mut text)?,
            Err(DecodeError::Fault(fault)) => text.push_str(fault_of(fault))?,
            Err(DecodeError::OutOfMemory) => bail!("out of memory"),
        },
        // What is signed for the subject that the bytes are, in the namespace "test".
        "signing" => match decode::<Subject<Sha256Digest>>(bytes) {
            Ok(subject) => {
                let signed = subject.signing_bytes(alloc, b"test")?;
                text.push_str(hex::encode(alloc, signed)?.as_str())?;
            }
            Err(fault) => text.push_str(fault_of(fault))?,
        },
        _ => bail!("{kind} is no kind of message"),
    }
    Ok(text)
}
