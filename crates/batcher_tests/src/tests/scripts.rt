//! Scripts whose calls are made with no program round them: with memory refused, and on two rounds.

mod memory;
mod pairs;

use batcher::messages::Sha256Digest;
use batcher::run::Answer;
use batcher_reader::print::{Output, print_answer};
use std::alloc::{AllocError, Global};

/// What is printed for an answer, and nothing where memory was refused to its call.
fn printed<G: Drop, C: Drop>(
    alloc: Global,
    answer: &Answer<G, C, Sha256Digest>,
) -> Result<Vec<u8>, AllocError> {
    let mut line = Vec::new(alloc);
    if let Answer::OutOfMemory = answer {
        return Ok(line);
    }
    let mut output = Output::new(alloc, &mut line);
    let told = print_answer(answer, &mut output).is_ok() && output.flush().is_ok();
    drop(output);
    if told { Ok(line) } else { Err(AllocError) }
}
