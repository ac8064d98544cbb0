//! What a round keeps of votes in each mode: in full, or as facts of their signers.

use super::*;

/// A vote that is kept in full is reported beside its opposite, and refused again as an own one.
const RELEASED: [(&str, &str); 17] = [
    (
        "round 0 1 2 releasing keyed",
        "round 0 1 participants 2 quorum 2",
    ),
    (
        "own 0 notarize 1",
        "own: added retained, report notarize(0, 1)",
    ),
    ("own 0 nullify -", "own: added retained, report nullify(0)"),
    (
        "own 1 finalize 1",
        "own: added retained, report finalize(1, 1)",
    ),
    (
        "net 0 0 finalize 1 ok",
        "net: refused, block finalize after nullify, report nullify-finalize(0, 1)",
    ),
    ("own 1 finalize 1", "own: refused duplicate finalize"),
    ("cert notarization 1", "cert: false"),
    ("cert nullification -", "cert: false"),
    ("cert finalization 1", "cert: false"),
    ("own 0 notarize 1", "own: duplicate compact, report none"),
    ("own 0 nullify -", "own: duplicate compact, report none"),
    ("own 1 finalize 1", "own: duplicate compact, report none"),
    ("missing 1", "missing: []"),
    (
        "net 0 0 finalize 1 ok",
        "net: refused, block finalize after nullify, report none",
    ),
    (
        "net 1 1 nullify - ok",
        "net: refused, block nullify after finalize, report none",
    ),
    ("cert notarization 2", "cert: false"),
    ("missing 1", "missing: []"),
];

#[test]
fn release_keeps_facts(rt: HostRuntime) -> Result<(), Fail> {
    Ok(plays(&rt, rt.alloc(), &RELEASED)?)
}

const RELEASED_BEFORE: [(&str, &str); 7] = [
    (
        "round 0 1 2 releasing keyed",
        "round 0 1 participants 2 quorum 2",
    ),
    ("cert notarization 1", "cert: true"),
    ("cert finalization 1", "cert: false"),
    (
        "own 0 notarize 1",
        "own: added compact, report notarize(0, 1)",
    ),
    (
        "own 0 finalize 1",
        "own: added compact, report finalize(0, 1)",
    ),
    ("own 0 notarize 1", "own: duplicate compact, report none"),
    ("own 0 finalize 1", "own: duplicate compact, report none"),
];

#[test]
fn release_before_the_votes(rt: HostRuntime) -> Result<(), Fail> {
    Ok(plays(&rt, rt.alloc(), &RELEASED_BEFORE)?)
}

const RETAINED: [(&str, &str); 5] = [
    (
        "round 0 1 2 retaining keyed",
        "round 0 1 participants 2 quorum 2",
    ),
    (
        "own 0 notarize 1",
        "own: added retained, report notarize(0, 1)",
    ),
    ("cert notarization 1", "cert: true"),
    (
        "net 0 0 notarize 2 ok",
        "net: refused, block conflicting notarize, report conflicting-notarize(0, 1, 2)",
    ),
    ("own 0 notarize 1", "own: refused duplicate notarize"),
];

#[test]
fn retained_votes_stay(rt: HostRuntime) -> Result<(), Fail> {
    Ok(plays(&rt, rt.alloc(), &RETAINED)?)
}

/// A first vote that was never compared shows no conflict.
const SKIPPED: [(&str, &str); 5] = [
    (
        "round 0 1 2 skipped keyed",
        "round 0 1 participants 2 quorum 2",
    ),
    (
        "own 1 notarize 1",
        "own: added compact, report notarize(1, 1)",
    ),
    ("cert notarization 2", "cert: true"),
    ("own 1 notarize 2", "own: duplicate compact, report none"),
    (
        "own 1 notarize 1",
        "own: refused conflicting constructed vote",
    ),
];

#[test]
fn skipped_compares_with_the_selected(rt: HostRuntime) -> Result<(), Fail> {
    Ok(plays(&rt, rt.alloc(), &SKIPPED)?)
}

/// Bad votes are named in the order in which they were restored.
const ORDERED: [(&str, &str); 13] = [
    (
        "round 0 1 4 releasing keyed",
        "round 0 1 participants 4 quorum 3",
    ),
    ("leader 1", "leader: ok"),
    (
        "net 1 1 notarize 2 ok",
        "net: added, block none, report notarize(1, 2)",
    ),
    (
        "net 2 2 notarize 1 bad",
        "net: added, block none, report notarize(2, 1)",
    ),
    (
        "net 2 2 finalize 1 ok",
        "net: added, block none, report finalize(2, 1)",
    ),
    (
        "net 0 0 notarize 1 bad",
        "net: added, block none, report notarize(0, 1)",
    ),
    (
        "net 0 0 finalize 1 ok",
        "net: added, block none, report finalize(0, 1)",
    ),
    (
        "net 3 3 notarize 1 bad",
        "net: added, block none, report notarize(3, 1)",
    ),
    (
        "net 3 3 finalize 1 ok",
        "net: added, block none, report finalize(3, 1)",
    ),
    (
        "net 3 3 nullify - ok",
        "net: refused, block nullify after finalize, report nullify-finalize(3, 1)",
    ),
    (
        "net 1 1 nullify - ok",
        "net: added, block none, report nullify(1)",
    ),
    ("cert finalization 1", "cert: false"),
    (
        "construct",
        "construct: processed 3, invalid [0, 2, 3], certificate none, fallback yes",
    ),
];

#[test]
fn kept_votes_come_in_order(rt: HostRuntime) -> Result<(), Fail> {
    Ok(plays(&rt, rt.alloc(), &ORDERED)?)
}
