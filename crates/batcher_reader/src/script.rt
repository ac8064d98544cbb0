//! Scripts: their bytes as lines, the lines as words, and the words as commands. docs/FORMATS.md
//! has the form.

ghost use Rattle.std.specs.Prelude.{◌≤◌, ◌≡◌, true};
ghost use Rattle.std.specs.Option.{option_map};
ghost use Rattle.batcher_reader.specs.Commands.{is_signer_among, are_among};

use batcher_types::positions::{Epoch, Round, View};
use batcher_votes::votes::Mode;
use std::alloc::{AllocError, Global};
use std::str::FromStr;

/// How many participants a round has at most.
const MOST_PARTICIPANTS: u32 = 1000;

/// The schemes that a round may use.
#[derive(Clone, Copy, Debug, PartialEq, Eq)]
pub enum SchemeWord {
    Keyed,
    /// `Keyed` without batches.
    Single,
    Sealed,
}

/// A `round` line.
#[derive(Clone, Copy, Debug, PartialEq, Eq)]
pub struct Opening {
    pub round: Round,
    pub participants: u32,
    pub mode: Mode,
    pub scheme: SchemeWord,
    ghost some: { 1 ≤ participants },
    ghost few: { participants ≤ 1000 },
}

/// A vote, but for its round and its signer, or a certificate's kind and proposal, which is named
/// by its payload's byte.
#[derive(Clone, Copy, Debug, PartialEq, Eq)]
pub enum Ballot {
    Notarize(u8),
    Nullify,
    Finalize(u8),
}

/// What signature a vote bears: its signer's, or that with a bit flipped.
#[derive(Clone, Copy, Debug, PartialEq, Eq)]
pub enum Signature {
    Good,
    Bad,
}

/// A line after `round`.
#[derive(Clone, Copy, Debug, PartialEq, Eq)]
pub enum Command {
    Network {
        sender: u64,
        signer: u32,
        ballot: Ballot,
        signature: Signature,
    },
    /// The vote of a participant.
    Own {
        signer: u32,
        ballot: Ballot,
    },
    Certificate(Ballot),
    Leader(u32),
    Construct,
    Forward(u32),
    Missing(u8),
}

/// The `round` line of a script, once it has come, and the commands after it.
#[derive(Drop)]
pub struct Lines {
    pub opening: Option<Opening>,
    pub commands: Vec<Command>,
    /// Of each `blocked` line, how many commands are before it.
    pub questions: Vec<usize>,
    ghost among: { are_among (option_map (λ first. first.participants) opening) commands.items
        ≡ true },
}

/// A script up to its first malformed line.
#[derive(Drop)]
pub struct Script {
    pub lines: Lines,
    /// The number of the malformed line.
    pub malformed: Option<usize>,
}

/// Why a line is not taken in.
#[derive(Clone, Copy, Debug, PartialEq, Eq)]
enum Fault {
    Malformed,
    OutOfMemory,
}

impl From<AllocError> for Fault {
    fn from(_error: AllocError) -> Fault {
        Fault::OutOfMemory
    }
}

impl Script {
    /// Reads a script up to its first malformed line. Out of memory is the only error.
    pub fn parse(alloc: Global, bytes: &[u8]) -> Result<Script, AllocError> {
        let mut lines = Lines {
            opening: None,
            commands: Vec::new(alloc),
            questions: Vec::new(alloc),
        };
        let mut malformed = None;
        let texts = bytes.split_inclusive(|byte| *byte == b'\n');
        for (index, line) in texts.enumerate() {
            match lines.add(alloc, line) {
                Ok(()) => {}
                Err(Fault::OutOfMemory) => return Err(AllocError),
                Err(Fault::Malformed) => {
                    malformed = Some(index + 1);
                    break;
                }
            }
        }
        Ok(Script { lines, malformed })
    }
}

impl Lines {
    // Takes in one more line, with its ending.
    fn add(&mut self, alloc: Global, line: &[u8]) -> Result<(), Fault> {
        let text = text_of(line).ok_or(Fault::Malformed)?;
        let words: Vec<&str> = text
            .split([' ', '\t'])
            .filter(|word| !word.is_empty())
            .collect(alloc)?;
        if is_skipped(words.as_slice()) {
            return Ok(());
        }
        let Some(opening) = self.opening else {
            let opening = Opening::parse(words.as_slice()).ok_or(Fault::Malformed)?;
            self.opening = Some(opening);
            return Ok(());
        };
        if is_question(words.as_slice()) {
            let before = self.commands.len();
            self.questions.push(before).map_err(AllocError::from)?;
            return Ok(());
        }
        let command = Command::parse(words.as_slice()).ok_or(Fault::Malformed)?;
        if !command.is_among(opening.participants) {
            return Err(Fault::Malformed);
        }
        self.commands.push(command).map_err(AllocError::from)?;
        Ok(())
    }
}

impl Opening {
    fn parse(words: &[&str]) -> Option<Opening> {
        let ["round", epoch, view, participants, mode, scheme] = words else {
            return None;
        };
        let epoch = Epoch::new(number(epoch)?);
        let view = View::new(number(view)?);
        let participants: u32 = number(participants)?;
        if !(1..=MOST_PARTICIPANTS).contains(&participants) {
            return None;
        }
        let mode = match *mode {
            "retaining" => Mode::Retaining,
            "releasing" => Mode::Releasing,
            "skipped" => Mode::Skipped,
            _ => return None,
        };
        let scheme = match *scheme {
            "keyed" => SchemeWord::Keyed,
            "single" => SchemeWord::Single,
            "sealed" => SchemeWord::Sealed,
            _ => return None,
        };
        Some(Opening {
            round: Round::new(epoch, view),
            participants,
            mode,
            scheme,
        })
    }
}

impl Command {
    /// Whether an own vote is of one of so many participants.
    pub fn is_among(&self, participants: u32) -> bool
        ensures { result ≡ is_signer_among participants self.now }
    {
        match self {
            Command::Own { signer, ballot: _ } => *signer < participants,
            Command::Network { .. }
            | Command::Certificate(_)
            | Command::Leader(_)
            | Command::Construct
            | Command::Forward(_)
            | Command::Missing(_) => true,
        }
    }

    fn parse(words: &[&str]) -> Option<Command> {
        match words {
            ["net", sender, signer, kind, payload, signature] => Some(Command::Network {
                sender: number(sender)?,
                signer: number(signer)?,
                ballot: Ballot::parse(kind, payload)?,
                signature: Signature::parse(signature)?,
            }),
            ["own", signer, kind, payload] => Some(Command::Own {
                signer: number(signer)?,
                ballot: Ballot::parse(kind, payload)?,
            }),
            ["cert", kind, payload] => {
                Some(Command::Certificate(Ballot::parse_certified(kind, payload)?))
            }
            ["leader", index] => Some(Command::Leader(number(index)?)),
            ["construct"] => Some(Command::Construct),
            ["forward", index] => Some(Command::Forward(number(index)?)),
            ["missing", payload] => Some(Command::Missing(number(payload)?)),
            _ => None,
        }
    }
}

impl Ballot {
    // The ballot of which a certificate's kind is made.
    fn parse_certified(kind: &str, payload: &str) -> Option<Ballot> {
        match kind {
            "notarization" => Ballot::parse("notarize", payload),
            "nullification" => Ballot::parse("nullify", payload),
            "finalization" => Ballot::parse("finalize", payload),
            _ => None,
        }
    }

    fn parse(kind: &str, payload: &str) -> Option<Ballot> {
        match (kind, payload) {
            ("notarize", payload) => Some(Ballot::Notarize(number(payload)?)),
            ("nullify", "-") => Some(Ballot::Nullify),
            ("finalize", payload) => Some(Ballot::Finalize(number(payload)?)),
            _ => None,
        }
    }
}

impl Signature {
    fn parse(word: &str) -> Option<Signature> {
        match word {
            "ok" => Some(Signature::Good),
            "bad" => Some(Signature::Bad),
            _ => None,
        }
    }
}

/// The text of a line without its ending, where all of the line is ASCII.
fn text_of(line: &[u8]) -> Option<&str> {
    let text = match line.strip_suffix(b"\n") {
        Some(ended) => ended.strip_suffix(b"\r").unwrap_or(ended),
        None => line,
    };
    if text.is_ascii() {
        str::from_utf8(text).ok()
    } else {
        None
    }
}

/// Whether a line has no word, or is a comment.
fn is_skipped(words: &[&str]) -> bool {
    match words {
        [] => true,
        [first, ..] => first.starts_with('#'),
    }
}

/// Whether a line asks who is blocked.
fn is_question(words: &[&str]) -> bool {
    matches!(words, ["blocked"])
}

/// The number that decimal digits write, where it is in the type's range.
fn number<N: FromStr>(word: &str) -> Option<N>
where
    N::Err: Drop,
{
    if word.bytes().all(|byte| byte.is_ascii_digit()) {
        word.parse().ok()
    } else {
        None
    }
}
