//! Two rounds that take the calls of one script: what a releasing round can't know of votes that it
//! keeps as facts alone, and where both stop.

ghost use Rattle.std.specs.Prelude.{◌≡◌, true};
ghost use Rattle.std.specs.List.{list_all};
ghost use Rattle.batcher_reader.specs.Commands.{is_signer_among};

use super::printed;
use batcher::messages::Sha256Digest;
use batcher::round::Round;
use batcher::run::{Answer, PairRan, run_pair};
use batcher::scheme::{Counter, Keyed, names};
use batcher_reader::calls::{TestScheme, calls_of};
use batcher_reader::script::{Command, Opening, Script};
use std::alloc::{AllocError, Global};
use std::process::Abort;
use std::rc::Rc;
use std::test::Fail;

/// A notarization, and then another vote of 1, and a bad one of 2.
const REPEATS: &str = "round 0 1 4 retaining keyed
leader 0
net 0 0 notarize 1 ok
net 1 1 notarize 1 ok
net 2 2 notarize 1 ok
construct
net 1 1 notarize 2 ok
net 2 2 notarize 1 bad
";

const RETAINING_TOLD: [&str; 7] = [
    "leader: ok",
    "net: added, block none, report notarize(0, 1)",
    "net: added, block none, report notarize(1, 1)",
    "net: added, block none, report notarize(2, 1)",
    "construct: processed 3, invalid [], certificate notarization(1), fallback no",
    "net: refused, block conflicting notarize, report conflicting-notarize(1, 1, 2)",
    "net: refused, block invalid signature, report none",
];

const RELEASING_TOLD: [&str; 7] = [
    "leader: ok",
    "net: added, block none, report notarize(0, 1)",
    "net: added, block none, report notarize(1, 1)",
    "net: added, block none, report notarize(2, 1)",
    "construct: processed 3, invalid [], certificate notarization(1), fallback no",
    "net: refused, block conflicting notarize, report none",
    "net: refused, block none, report none",
];

/// An own vote again, once its kind is released.
const OWN_REPEAT: &str = "round 0 1 4 retaining keyed
own 0 notarize 1
cert notarization 1
own 0 notarize 1
";

const OWN_TOLD: [&str; 3] = [
    "own: added retained, report notarize(0, 1)",
    "cert: true",
    "own: refused duplicate notarize",
];

/// The lines of both rounds, each with its LF, and where they stopped.
#[derive(Drop)]
pub struct PairTold {
    pub retaining: Vec<Vec<u8>>,
    pub releasing: Vec<Vec<u8>>,
    pub stopped: Option<usize>,
}

fn ran(
    alloc: Global,
    opening: &Opening,
    commands: &[Command],
) -> Result<PairRan<Keyed<true>, Sha256Digest>, AllocError>
    requires { list_all (is_signer_among opening.now.participants) commands.now ≡ true }
{
    let scheme = Keyed::of(names(alloc, opening.participants)?);
    let calls = calls_of(alloc, &scheme, opening.round, commands)?;
    let scheme = Rc::new(alloc, scheme)?;
    let retaining = Round::new(alloc, opening.round, Rc::clone(&scheme)?, true);
    let releasing = Round::new(alloc, opening.round, scheme, false);
    let mut rng = Counter::new(0);
    let mut twin = Counter::new(0);
    run_pair(
        alloc,
        retaining,
        releasing,
        &mut rng,
        &mut twin,
        calls.as_slice(),
    )
}

fn lines<G: Drop, C: Drop>(
    alloc: Global,
    answers: &[Answer<G, C, Sha256Digest>],
) -> Result<Vec<Vec<u8>>, AllocError> {
    let mut lines = Vec::new(alloc);
    for answer in answers {
        lines.push(printed(alloc, answer)?)?;
    }
    Ok(lines)
}

/// What the calls of a script are answered by both.
pub fn told(alloc: Global, text: &str) -> Result<PairTold, AllocError> {
    let script = Script::parse(alloc, text.as_bytes())?;
    let Some(opening) = &script.lines.opening else {
        return Err(AllocError);
    };
    let PairRan {
        retaining,
        releasing,
        stopped,
    } = ran(alloc, opening, script.lines.commands.as_slice())?;
    let retaining = retaining.into_answers();
    let releasing = releasing.into_answers();
    Ok(PairTold {
        retaining: lines(alloc, retaining.as_slice())?,
        releasing: lines(alloc, releasing.as_slice())?,
        stopped,
    })
}

fn assert_told(rt: &impl Abort, lines: &[Vec<u8>], expected: &[&str]) {
    assert_eq!(rt; lines.len(), expected.len());
    for (line, expected) in lines.iter().zip(expected) {
        assert_eq!(rt; line.as_slice().trim_ascii(), expected.as_bytes());
    }
}

#[test]
fn facts_tell_less_than_votes(rt: HostRuntime) -> Result<(), Fail> {
    let told = told(rt.alloc(), REPEATS)?;
    assert_told(&rt, told.retaining.as_slice(), &RETAINING_TOLD);
    assert_told(&rt, told.releasing.as_slice(), &RELEASING_TOLD);
    assert_eq!(rt; told.stopped, None);
    Ok(())
}

#[test]
fn own_fault_stops_both(rt: HostRuntime) -> Result<(), Fail> {
    let told = told(rt.alloc(), OWN_REPEAT)?;
    assert_told(&rt, told.retaining.as_slice(), &OWN_TOLD);
    assert_told(&rt, told.releasing.as_slice(), &OWN_TOLD[..2]);
    assert_eq!(rt; told.stopped, Some(2));
    Ok(())
}
