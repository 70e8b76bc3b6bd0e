//! Words as texts, and as clap's matches.

ghost use Rattle.std.specs.Prelude.{◌≡◌, IfOk, IfErr, Ok, true, map};
ghost use Rattle.clap.specs.Faults.{fault_of, is_simple_and_free};
ghost use Rattle.clap.specs.Kinds.{FailsBy};
ghost use Rattle.clap.specs.Simple.{app_of};
ghost use Rattle.bisync_opts.specs.Faults.{fault_by};
ghost use Rattle.bisync_opts.specs.Reading.{IsRefusal, rows_in, taken, utf8_words};

use crate::{OptFault, UsageKind};
use bisync_text::Text;
use clap::error::ErrorKind;
use clap::{ArgMatches, Command};
use std::alloc::Global;

/// The words as texts, where each is UTF-8.
pub fn texts(alloc: Global, words: &[Text]) -> Result<Vec<&str>, OptFault>
    ensures ok { IfOk result (λ texts. utf8_words words.now ≡ Ok (map (λ t. t.now) texts.items)) }
    ensures refused { IfErr result (IsRefusal (utf8_words words.now)) }
{
    let mut texts = Vec::new(alloc);
    for word in words {
        match std::str::from_utf8(word.as_bytes()) {
            Ok(text) => texts.push(text)?,
            Err(_) => return Err(OptFault::Usage(UsageKind::Words)),
        }
    }
    Ok(texts)
}

/// clap's matches of the words.
pub fn parse<'a>(command: Command<'a>, words: &'a [&'a str]) -> Result<ArgMatches<'a>, OptFault>
    requires { is_simple_and_free (app_of command) ≡ true }
    ensures ok { IfOk result (λ m. taken (app_of command.entry) (map (λ w. w.now) words.entry.now)
        ≡ Ok (rows_in m)) }
    ensures refused { IfErr result
        (IsRefusal (taken (app_of command.entry) (map (λ w. w.now) words.entry.now))) }
{
    match command.try_get_matches_from(words) {
        Ok(matches) => Ok(matches),
        Err(error) => Err(fault_by(error.kind())),
    }
}

/// Memory was refused, or clap refused the words.
fn fault_by(kind: ErrorKind) -> OptFault
    ensures { result ≡ fault_by kind }
{
    match kind {
        ErrorKind::OutOfMemory => OptFault::OutOfMemory,
        _ => OptFault::Usage(UsageKind::Words),
    }
}
