//! The words that the system gave the program.

use bisync_text::{OutOfMemory, Text};
use std::alloc::Global;
use std::env::{Env, FillError};

/// The words after the program's name, as the bytes that were given: a word needn't be UTF-8.
pub fn words_of<E: Env>(alloc: Global, env: &E) -> Result<Vec<Text>, OutOfMemory> {
    let mut words = Vec::new(alloc);
    for place in 1..usize::MAX {
        match word_at(alloc, env, place)? {
            Some(word) => words.push(word)?,
            None => break,
        }
    }
    Ok(words)
}

/// The word at this place, or None behind the last one. The buffer grows until it holds the word.
fn word_at<E: Env>(alloc: Global, env: &E, place: usize) -> Result<Option<Text>, OutOfMemory> {
    let mut room = 256usize;
    for _ in 0..usize::BITS {
        let mut bytes = vec![in alloc; 0u8; room]?;
        match env.arg(place, &mut bytes) {
            Ok(length) => {
                bytes.truncate(length);
                return Ok(Some(Text::from_vec(bytes)));
            }
            Err(FillError::TooLong) => room = room.saturating_add(room),
            Err(FillError::NotPresent) => return Ok(None),
        }
    }
    Err(OutOfMemory)
}
