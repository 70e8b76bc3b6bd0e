//! How fast the text of listings is read and written, and how fast filter rules are tried: for
//! `bench/texts`, which compares it with `cat` and `wc` on the same text in the same run. What it
//! counts goes to standard output, and the times go to standard error.
#![tactic(auto)]

mod listings;
mod rules;

use std::io;
use std::io::Read;
use std::process::ExitCode;

/// The words are `listing`, with a listing text on standard input, or `rules`.
fn main(rt: HostRuntime) -> io::Result<ExitCode> {
    let mut words = std::env::args(&rt)?;
    words.next();
    match words.next() {
        Some(word) if word.as_str() == "listing" => {
            let mut text = Vec::new(rt.alloc());
            rt.reader().read_to_end(&mut text)?;
            listings::time(&rt, text.as_slice())
        }
        Some(word) if word.as_str() == "rules" => rules::time(&rt),
        _ => {
            eprintln!(rt; "usage: bisync_speed listing < LISTING, or bisync_speed rules")?;
            Ok(ExitCode::from(2))
        }
    }
}
