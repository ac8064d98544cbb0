//! Whom the answers have blocked, asked at every place of a script.

use super::*;

/// Questions before the first call, between calls and after the last, also several in a row. A
/// sender that is
/// blocked twice is listed once, and the senders by their number, in whatever order they came.
const ASKED: [(&str, &str); 27] = [
    (
        "round 0 1 4 releasing keyed",
        "round 0 1 participants 4 quorum 3",
    ),
    ("blocked", "blocked: []"),
    ("blocked", "blocked: []"),
    (
        "net 10 0 nullify - ok",
        "net: refused, block unknown participant, report none",
    ),
    ("blocked", "blocked: [10]"),
    ("blocked", "blocked: [10]"),
    ("blocked", "blocked: [10]"),
    (
        "net 9 0 nullify - ok",
        "net: refused, block unknown participant, report none",
    ),
    (
        "net 2 1 notarize 1 ok",
        "net: refused, block notarize signer mismatch, report none",
    ),
    (
        "net 0 0 nullify - ok",
        "net: added, block none, report nullify(0)",
    ),
    ("blocked", "blocked: [2, 9, 10]"),
    ("construct", "construct: none"),
    ("blocked", "blocked: [2, 9, 10]"),
    (
        "net 10 3 finalize 1 ok",
        "net: refused, block unknown participant, report none",
    ),
    ("blocked", "blocked: [2, 9, 10]"),
    (
        "net 2 2 notarize 1 ok",
        "net: added, block none, report notarize(2, 1)",
    ),
    (
        "net 0 0 finalize 1 ok",
        "net: refused, block finalize after nullify, report nullify-finalize(0, 1)",
    ),
    ("own 1 nullify -", "own: added retained, report nullify(1)"),
    ("blocked", "blocked: [0, 2, 9, 10]"),
    ("blocked", "blocked: [0, 2, 9, 10]"),
    ("leader 3", "leader: ok"),
    (
        "net 18446744073709551615 3 nullify - ok",
        "net: refused, block unknown participant, report none",
    ),
    (
        "net 3 3 nullify - ok",
        "net: added, block none, report nullify(3)",
    ),
    ("blocked", "blocked: [0, 2, 9, 10, 18446744073709551615]"),
    ("cert nullification -", "cert: false"),
    ("blocked", "blocked: [0, 2, 9, 10, 18446744073709551615]"),
    ("blocked", "blocked: [0, 2, 9, 10, 18446744073709551615]"),
];

#[test]
fn blocked_senders_are_told_at_each_place(rt: HostRuntime) -> Result<(), Fail> {
    Ok(plays(&rt, rt.alloc(), &ASKED)?)
}

/// Questions with no call at all.
const ASKED_ALONE: [(&str, &str); 3] = [
    (
        "round 0 1 4 skipped sealed",
        "round 0 1 participants 4 quorum 3",
    ),
    ("blocked", "blocked: []"),
    ("blocked", "blocked: []"),
];

#[test]
fn nobody_is_blocked_before_a_call(rt: HostRuntime) -> Result<(), Fail> {
    Ok(plays(&rt, rt.alloc(), &ASKED_ALONE)?)
}
