//! Verdicts on votes, which a round is handed by who verifies elsewhere.

ghost use Rattle.std.specs.Prelude.{◌≡◌, map, IfOk};

use batcher::messages::{Attestation, Digest, Subject};
use batcher::scheme::{Counter, Scheme};
use std::alloc::{AllocError, Global};
use std::slice;

/// The scheme's verdict on each attestation of a list by itself, in the order of the list.
pub fn verdicts_on<S: Scheme<D>, D: Digest>(
    alloc: Global,
    scheme: &S,
    subject: Subject<D>,
    list: &[Attestation<S::Signature>],
) -> Result<Vec<bool>, AllocError>
    ensures { IfOk result (λ verdicts. verdicts.items
        ≡ map ((S.meaning scheme.now).attests subject) list.now) }
{
    let mut verdicts = Vec::new(alloc);
    for attestation in list {
        let one = slice::from_ref(attestation);
        let found = scheme.verify_attestations(alloc, &mut Counter::new(0), subject, one)?;
        verdicts.push(found.invalid.is_empty())?;
    }
    Ok(verdicts)
}
