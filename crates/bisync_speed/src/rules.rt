//! Filter rules, tried on many paths.

use bisync_filter::Rules;
use bisync_glob::{Room, Subject};
use bisync_text::Path;
use std::alloc::Global;
use std::io;
use std::process::ExitCode;
use std::rt::Clock;
use std::time::Instant;

/// How many rules are tried on how many paths, of 50 bytes each.
const RULES: u32 = 100;

const PATHS: u32 = 100_000;

/// Times the rules on all paths.
pub fn time<R: AllocGlobal + Print + Eprint + Clock>(rt: &R) -> io::Result<ExitCode> {
    let text = rules_text(rt.alloc())?;
    let Ok(rules) = Rules::read(rt.alloc(), text.as_bytes()) else {
        println!(rt; "no rules")?;
        return Ok(ExitCode::from(1));
    };
    let paths = paths(rt.alloc())?;
    let start = Instant::now(rt)?;
    let passing = count(&rules, paths.as_slice());
    eprintln!(rt; "tried in {} microseconds", start.elapsed(rt)?.as_micros())?;
    println!(rt; "{passing} of {} paths pass", paths.len())?;
    Ok(ExitCode::SUCCESS)
}

/// Rules that exclude names by their ends, by their fronts and by classes, of which few match.
fn rules_text(alloc: Global) -> io::Result<String> {
    let mut text = String::new(alloc);
    for i in 0..RULES {
        let rule = match i % 4 {
            0 => format!(in alloc; "- *.tmp{i}\n")?,
            1 => format!(in alloc; "- /cache{i}/**\n")?,
            2 => format!(in alloc; "- build-[0-9]{i}/\n")?,
            _ => format!(in alloc; "- {{draft,copy}}-{i}*.txt\n")?,
        };
        text.push_str(rule.as_str())?;
    }
    Ok(text)
}

fn paths(alloc: Global) -> io::Result<Vec<Path>> {
    let mut paths = Vec::new(alloc);
    for i in 0..PATHS {
        let folder = i / 1000;
        let text = format!(in alloc; "projects/archive-{folder:05}/photographs/image-{i:09}")?;
        if let Ok(path) = Path::read(alloc, text.as_bytes()) {
            paths.push(path)?;
        }
    }
    Ok(paths)
}

fn count(rules: &Rules, paths: &[Path]) -> usize {
    let mut subject = Subject::new();
    let mut room = Room::new();
    let mut passing = 0usize;
    for path in paths {
        subject.set(path);
        if rules.passes_in(&subject, &mut room) {
            passing = passing.saturating_add(1);
        }
    }
    passing
}
