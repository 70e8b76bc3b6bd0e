//! What tests tell of plans.

use crate::{Plan, PlanFault};
use bisync_text::Path;
use bisync_tree::{Listing, Side, Step};
use std::alloc::Global;
use std::test::Fail;

/// A path as text.
fn text_of(path: &Path) -> Result<&str, Fail> {
    match std::str::from_utf8(path.as_bytes()) {
        Ok(text) => Ok(text),
        Err(_) => Err(Fail::new("a path isn't UTF-8")),
    }
}

/// The number of a side.
fn number(side: Side) -> u8 {
    match side {
        Side::One => 1,
        Side::Two => 2,
    }
}

/// Adds the line of a step.
fn add_step(alloc: Global, lines: &mut String, step: &Step) -> Result<(), Fail> {
    let line = match step {
        Step::Copy { from, path, entry } => {
            format!(in alloc;
                "copy {} {} {}\n",
                number(*from),
                text_of(path)?,
                entry.size
            )?
        }
        Step::Rename {
            side,
            from,
            to,
            entry,
        } => {
            format!(in alloc;
                "rename {} {} {} {}\n",
                number(*side),
                text_of(from)?,
                text_of(to)?,
                entry.size
            )?
        }
        Step::Delete { side, path, entry } => {
            format!(in alloc;
                "delete {} {} {}\n",
                number(*side),
                text_of(path)?,
                entry.size
            )?
        }
    };
    lines.push_str(line.as_str())?;
    Ok(())
}

/// Adds a line for each row of a side's listing: the size and the time in nanoseconds.
fn add_rows(alloc: Global, lines: &mut String, side: Side, listing: &Listing) -> Result<(), Fail> {
    for i in 0..listing.len() {
        let entry = listing.entry_at(i);
        let path = text_of(listing.path_at(i))?;
        let line = format!(in alloc;
            "{}: {} {} {}\n",
            number(side),
            path,
            entry.size,
            entry.time
        )?;
        lines.push_str(line.as_str())?;
    }
    Ok(())
}

/// The plan or why there is none, in lines.
pub(crate) fn told(alloc: Global, made: &Result<Plan, PlanFault>) -> Result<String, Fail> {
    let mut lines = String::new(alloc);
    match made {
        Ok(plan) => {
            for step in &plan.steps {
                add_step(alloc, &mut lines, step)?;
            }
            add_rows(alloc, &mut lines, Side::One, &plan.final1)?;
            add_rows(alloc, &mut lines, Side::Two, &plan.final2)?;
        }
        Err(PlanFault::TooLong(side, _)) => {
            let line = format!(in alloc; "too long on {}\n", number(*side))?;
            lines.push_str(line.as_str())?;
        }
        Err(PlanFault::ListingTooLong(side, size)) => {
            let line = format!(in alloc; "listing {} has {}\n", number(*side), size)?;
            lines.push_str(line.as_str())?;
        }
        Err(PlanFault::OutOfSync(path, one, two)) => {
            let one = one.as_ref().map_or(0, |entry| entry.size);
            let two = two.as_ref().map_or(0, |entry| entry.size);
            let line = format!(in alloc; "apart at {} {} {}\n", text_of(path)?, one, two)?;
            lines.push_str(line.as_str())?;
        }
        Err(PlanFault::OutOfMemory) => return Err(Fail::new("memory was refused")),
    }
    Ok(lines)
}
