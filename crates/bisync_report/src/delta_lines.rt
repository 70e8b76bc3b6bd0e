//! The lines of what changed since the last good run.

ghost use Rattle.std.specs.Prelude.{option_copied};
ghost use Rattle.std.specs.List.{flat_map};
ghost use Rattle.bisync_tree.specs.Walk.{seen};
ghost use Rattle.bisync_report.specs.Lines.{delta_line, delta_lines, changes_text};
ghost use Rattle.bisync_report.specs.Waiting.{Puts};

use crate::parts::Part;
use crate::waiting::Waiting;
use bisync_device::{Failed, Sink};
use bisync_table::changes::delta;
use bisync_table::{Cell, Delta, Walk};
use bisync_text::Path;
use bisync_tree::{Compare, Side, View};

/// Puts the lines of every passing path, in byte order. Where there is no view, there are none.
pub fn put_changes<S: Sink>(
    view: Option<&View>,
    compare: &Compare,
    waiting: &mut Waiting,
    sink: &mut S,
) -> Result<(), Failed>
    ensures { Puts S.tells (changes_text compare.now (option_copied view.entry))
        waiting.old (S.state sink.old) waiting.new (S.state sink.new) result }
{
    match view {
        None => Ok(()),
        Some(view) => put_cells(&mut Walk::new(view), compare, waiting, sink),
    }
}

fn put_cells<S: Sink>(
    walk: &mut Walk<'_>,
    compare: &Compare,
    waiting: &mut Waiting,
    sink: &mut S,
) -> Result<(), Failed>
    ensures { Puts S.tells (flat_map (delta_lines compare.now) walk.old)
        waiting.old (S.state sink.old) waiting.new (S.state sink.new) result }
{
    while let Some(cell) = walk.next() {
        put_cell(compare, &cell, waiting, sink)?;
    }
    Ok(())
}

fn put_cell<S: Sink>(
    compare: &Compare,
    cell: &Cell<'_>,
    waiting: &mut Waiting,
    sink: &mut S,
) -> Result<(), Failed>
    ensures { Puts S.tells (delta_lines compare.now (seen cell.now))
        waiting.old (S.state sink.old) waiting.new (S.state sink.new) result }
{
    let one = delta(compare, cell.base1, cell.now1);
    put_delta(Side::One, cell.path, one, waiting, sink)?;
    let two = delta(compare, cell.base2, cell.now2);
    put_delta(Side::Two, cell.path, two, waiting, sink)
}

fn put_delta<S: Sink>(
    side: Side,
    path: &Path,
    delta: Option<Delta>,
    waiting: &mut Waiting,
    sink: &mut S,
) -> Result<(), Failed>
    ensures { Puts S.tells (delta_line side path.now delta)
        waiting.old (S.state sink.old) waiting.new (S.state sink.new) result }
{
    let Some(delta) = delta else {
        return Ok(());
    };
    waiting.put_parts(
        &[
            Part::Of(side),
            Part::Words(b" "),
            Part::Change(delta),
            Part::Words(b" "),
            Part::Quoted(path.as_bytes()),
            Part::Words(b"\n"),
        ],
        sink,
    )
}
