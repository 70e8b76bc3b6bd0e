//! The program `lorwethal`: the words of a command, and what they ask for.
#![tactic(auto)]

mod answers;
mod arguments;
mod streams;
mod tasks;
#[cfg(test)]
mod tests;
mod top;

use bisync_local::{LocalRemote, LocalWork, StdoutSink, SystemClock};
use std::process::ExitCode;

/// Gives the words after the program's name to the top call, with the real devices. Where memory for
/// the words is refused, nothing is written.
fn main(rt: HostRuntime) -> ExitCode {
    let _streams = streams::fill_closed(&rt);
    let alloc = rt.alloc();
    let Ok(words) = arguments::words_of(alloc, &rt) else {
        return ExitCode::from(1);
    };
    let answer = top::bisync_main(
        alloc,
        &words,
        &mut LocalRemote::new(&rt),
        &mut LocalRemote::new(&rt),
        &mut LocalRemote::new(&rt),
        &mut LocalRemote::new(&rt),
        &mut LocalWork::new(&rt),
        &mut SystemClock::new(&rt),
        &mut StdoutSink::new(&rt),
    );
    ExitCode::from(answer.status)
}
