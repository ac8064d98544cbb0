//! What travels between validators and what they sign: round numbers and participants, proposals,
//! votes and certificates, and the schemes that verify attestations.
#![tactic(auto)]

pub mod messages;
pub mod positions;
pub mod scheme;
