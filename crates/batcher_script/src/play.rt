//! Plays a script: reads it, makes its calls in one run, and prints the answers.

ghost use Rattle.std.specs.Prelude.{◌≡◌, true};
ghost use Rattle.std.specs.List.{list_all};
ghost use Rattle.batcher_reader.specs.Commands.{is_signer_among};

use batcher::run::{Answer, blocked};
use batcher_reader::calls::TestScheme;
use batcher_reader::input::{Stop, read_all};
use batcher_reader::print::{AsText, Output, print_answer};
use batcher_reader::rounds::{answer_all, scheme_of};
use batcher_reader::script::{Command, Opening, SchemeWord, Script};
use batcher_types::messages::Sha256Digest;
use batcher_types::scheme::{Keyed, Sealed};
use std::alloc::Global;
use std::collections::BTreeSet;
use std::io::{Read, Write};

/// Plays the script that the reader holds, and answers the exit status.
pub fn play<R: Read + Drop, W: Write + Drop>(alloc: Global, reader: R, writer: W) -> u8 {
    match play_all(alloc, reader, writer) {
        Ok(()) => 0,
        Err(stop) => stop.status(),
    }
}

fn play_all<R: Read + Drop, W: Write + Drop>(
    alloc: Global,
    mut reader: R,
    writer: W,
) -> Result<(), Stop> {
    let bytes = read_all(alloc, &mut reader)?;
    let script = Script::parse(alloc, bytes.as_slice())?;
    let mut output = Output::new(alloc, writer);
    let played = print_script(alloc, &script, &mut output);
    if played != Err(Stop::Output) {
        output.flush()?;
    }
    played
}

fn print_script<W: Write>(
    alloc: Global,
    script: &Script,
    output: &mut Output<W>,
) -> Result<(), Stop> {
    if let Some(opening) = &script.lines.opening {
        output.print(AsText(opening))?;
        let commands = script.lines.commands.as_slice();
        let questions = script.lines.questions.as_slice();
        match opening.scheme {
            SchemeWord::Keyed => {
                print_answers::<Keyed<true>, W>(alloc, opening, commands, questions, output)?
            }
            SchemeWord::Single => {
                print_answers::<Keyed<false>, W>(alloc, opening, commands, questions, output)?
            }
            SchemeWord::Sealed => print_answers::<Sealed, W>(
                alloc, opening, commands, questions, output,
            )?,
        }
    }
    match script.malformed {
        None => Ok(()),
        Some(number) => {
            output.print(format_args!("line {number}: malformed"))?;
            Err(Stop::Malformed)
        }
    }
}

/// Prints the answers up to the first that is out of memory, and after so many of them as a
/// question says who is blocked by then. Senders are gathered from question to question, so that
/// many questions cost no more than their own lines.
fn print_answers<S: TestScheme, W: Write>(
    alloc: Global,
    opening: &Opening,
    commands: &[Command],
    questions: &[usize],
    output: &mut Output<W>,
) -> Result<(), Stop>
    requires { list_all (is_signer_among opening.now.participants) commands.now ≡ true }
{
    let scheme = scheme_of::<S>(alloc, opening)?;
    let answered = answer_all(alloc, opening, scheme, commands)?;
    let mut calls = answered.calls.as_slice();
    let mut answers = answered.answers.as_slice();
    let mut printed = 0;
    let mut senders = BTreeSet::new(alloc);
    for question in questions {
        let more = question.saturating_sub(printed).min(answers.len());
        let (asked, later) = answers.split_at(more);
        print_each(asked, output)?;
        let (made, after) = calls.split_at(more.min(calls.len()));
        for sender in blocked(alloc, made, asked)?.as_slice() {
            senders.insert(*sender).map_err(|_| Stop::OutOfMemory)?;
        }
        output.print(format_args!("blocked: {}", AsText(&senders)))?;
        calls = after;
        answers = later;
        printed = *question;
    }
    print_each(answers, output)
}

fn print_each<G: Drop, C: Drop, W: Write>(
    answers: &[Answer<G, C, Sha256Digest>],
    output: &mut Output<W>,
) -> Result<(), Stop> {
    for answer in answers {
        print_answer(answer, output)?;
    }
    Ok(())
}

#[cfg(test)]
mod tests;
