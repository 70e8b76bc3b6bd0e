//! The candidates for the name of a loser.

ghost use Rattle.std.specs.Prelude.{◌≡◌, ◌++◌, ◌<◌, ◌≤◌, ◌^◌, length, decimal, OnOk, IfOk};
ghost use Rattle.bisync_text.specs.Path.{IsPath};
ghost use Rattle.bisync_tree.specs.Ranges.{HasSuffixes};
ghost use Rattle.bisync_model.specs.Names.{mark, conflict_suffix};
ghost use Rattle.bisync_conflict.specs.Naming.{suffix_of, candidate_of};

use bisync_text::{OutOfMemory, Path};
use bisync_tree::{ConflictRule, Loser, Side};
use itoa::Buffer;
use std::alloc::Global;

/// The candidate at a place, counted from 0, for the name of the side's file at a path. It
/// is a path, where it isn't too long.
pub(crate) fn candidate(
    alloc: Global,
    conflict: &ConflictRule,
    side: Side,
    path: &Path,
    place: u128,
) -> Result<Vec<u8>, OutOfMemory>
    requires suffixes { HasSuffixes conflict.now }
    requires small { place < 2 ^ 127 }
    ensures name { IfOk result (λ name. name.items ≡ candidate_of conflict.now side path.now place) }
    ensures path { IfOk result (λ name. length name.items ≤ 4096 → IsPath name.items) }
{
    let mut name = path.as_bytes().to_vec(alloc)?;
    name.push(b'.')?;
    push_suffix(&mut name, conflict, side, place)?;
    Ok(name)
}

/// Adds what follows the point in a candidate.
fn push_suffix(
    name: &mut Vec<u8>,
    conflict: &ConflictRule,
    side: Side,
    place: u128,
) -> Result<(), OutOfMemory>
    requires { place < 2 ^ 127 }
    ensures { OnOk result (name.new.items ≡ name.old.items ++ conflict_suffix conflict.now.loser (suffix_of conflict.now) side place) }
{
    match conflict.loser {
        Loser::Pathname => {
            push_mark(name, conflict, side)?;
            if place == 0 {
                return Ok(());
            }
            name.push(b'-')?;
        }
        Loser::Num | Loser::Delete => name.extend_from_slice(suffix(conflict, side))?,
    }
    push_number(name, place + 1)
}

/// Adds the side's suffix, with the side's number where the two suffixes are equal.
fn push_mark(name: &mut Vec<u8>, conflict: &ConflictRule, side: Side) -> Result<(), OutOfMemory>
    ensures { OnOk result (name.new.items ≡ name.old.items ++ mark (suffix_of conflict.now) side) }
{
    name.extend_from_slice(suffix(conflict, side))?;
    if conflict.suffix1 == conflict.suffix2 {
        name.push(match side {
            Side::One => b'1',
            Side::Two => b'2',
        })?;
    }
    Ok(())
}

/// Adds a number in decimal digits.
fn push_number(name: &mut Vec<u8>, number: u128) -> Result<(), OutOfMemory>
    ensures { OnOk result (name.new.items ≡ name.old.items ++ decimal number) }
{
    let mut digits = Buffer::new();
    name.extend_from_slice(digits.format(number).as_bytes())?;
    Ok(())
}

/// The suffix of a side.
fn suffix(conflict: &ConflictRule, side: Side) -> &[u8]
    ensures { result.now ≡ suffix_of conflict.now side }
{
    match side {
        Side::One => conflict.suffix1.as_bytes(),
        Side::Two => conflict.suffix2.as_bytes(),
    }
}
