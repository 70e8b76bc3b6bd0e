//! The words of a process.

use crate::arguments::words_of;
use std::env::{Env, FillError};
use std::test::Fail;

/// A process that was given these words, the program's name first.
#[derive(Drop)]
struct Given<'a> {
    words: &'a [&'a [u8]],
}

impl Env for Given<'_> {
    fn arg(&self, i: usize, buf: &mut [u8]) -> Result<usize, FillError> {
        let Some(word) = self.words.get(i) else {
            return Err(FillError::NotPresent);
        };
        if word.len() > buf.len() {
            return Err(FillError::TooLong);
        }
        buf[..word.len()].copy_from_slice(word);
        Ok(word.len())
    }

    fn var(&self, _name: &str, _buf: &mut [u8]) -> Result<usize, FillError> {
        Err(FillError::NotPresent)
    }

    fn var_at(&self, _i: usize, _buf: &mut [u8]) -> Result<usize, FillError> {
        Err(FillError::NotPresent)
    }
}

#[test]
fn words_are_the_bytes_that_were_given(rt: HostRuntime) -> Result<(), Fail> {
    let long = [b'a'; 1000];
    let given: [&[u8]; 5] = [b"lorwethal", b"bisync", b"", b"\xff\xfe", &long];
    let words = words_of(rt.alloc(), &Given { words: &given })?;
    let rest = given.iter().skip(1);
    if words.len() != 4
        || words
            .iter()
            .zip(rest)
            .any(|(word, given)| word.as_bytes() != *given)
    {
        return Err(Fail::new("words"));
    }
    Ok(())
}
