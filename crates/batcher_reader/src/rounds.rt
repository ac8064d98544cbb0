//! The round that a script asks for, and what it answers.

ghost use Rattle.std.specs.Prelude.{◌≡◌, true, length, IfOk};
ghost use Rattle.std.specs.List.{list_all, AllZip};
ghost use Rattle.batcher_reader.specs.Calls.{IsCallOf};
ghost use Rattle.batcher_reader.specs.Commands.{is_signer_among};
ghost use Rattle.batcher_reader.specs.ScriptRuns.{IsPlayed};

use crate::calls::{TestScheme, calls_of};
use crate::script::{Command, Opening};
use batcher::run::{Answer, Call, run};
use batcher_round::round::Round;
use batcher_types::messages::Sha256Digest;
use batcher_types::scheme::{Counter, Name, names};
use std::alloc::{AllocError, Global};
use std::rc::Rc;

/// The scheme of the participants that the first line asks for.
pub fn scheme_of<S: TestScheme>(alloc: Global, opening: &Opening) -> Result<Rc<S>, AllocError>
    ensures { IfOk result (λ scheme.
        length (S.meaning scheme.value).participants ≡ opening.now.participants) }
{
    let scheme = Rc::new(alloc, S::of(names(alloc, opening.participants)?))?;
    Ok(scheme)
}

/// The calls of a script, and what a run answers to them.
#[derive(Drop)]
pub struct Answered<C: Drop> {
    pub calls: Vec<Call<Name, [u8; 32], C, Sha256Digest>>,
    pub answers: Vec<Answer<[u8; 32], C, Sha256Digest>>,
}

/// Makes the calls in one run on a fresh round.
pub fn answer_all<S: TestScheme>(
    alloc: Global,
    opening: &Opening,
    scheme: Rc<S>,
    commands: &[Command],
) -> Result<Answered<S::Certificate>, AllocError>
    requires participants { length (S.meaning scheme.value).participants
        ≡ opening.now.participants }
    requires among { list_all (is_signer_among opening.now.participants) commands.now ≡ true }
    ensures each { IfOk result (λ answered.
        AllZip (IsCallOf (S.meaning scheme.value) opening.now.round)
        commands.now answered.calls.items) }
    ensures played { IfOk result (λ answered.
        IsPlayed (S.meaning scheme.value) opening.now.round
        answered.calls.items answered.answers.items) }
{
    let calls = calls_of(alloc, &*scheme, opening.round, commands)?;
    let round = Round::in_mode(alloc, opening.round, scheme, opening.mode);
    let ran = run(alloc, round, &mut Counter::new(0), calls.as_slice())?;
    Ok(Answered {
        calls,
        answers: ran.into_answers(),
    })
}
