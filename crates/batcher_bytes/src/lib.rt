//! What is bytes: subjects, votes, certificates and evidence; a log that outlives a crash; and
//! signatures, with a scheme over them that has no parts at run time but who takes part. Whoever
//! hands such signatures in verifies them: a round over it is handed verdicts.
#![tactic(auto)]

mod certificates;
mod codec;
mod copied;
mod encodings;
mod fault;
mod log;
mod messages;
mod owned;
mod proof;
mod scheme;
mod signature;
mod signed;
mod signing;
mod truth;

pub use certificates::{Content, Listed, Verified};
pub use codec::{Codec, VERSION, decode, decode_front, encode, no_encoding_begins_another};
pub use copied::{CopiedLog, Owed};
pub use fault::{DecodeError, DecodeFault};
pub use log::{Log, LogFault, MemoryLog};
pub use owned::{
    OwnedCodec, decode_bytes, decode_list, decode_owned, decode_owned_front, encode_bytes,
    encode_list, encode_owned,
};
pub use proof::Proof;
pub use scheme::Bytes;
pub use signature::{Keys, Signature, WIDTH};
pub use signed::Signed;
pub use signing::{SigningBytes, nothing_is_signed_for_two};
pub use truth::Truth;
