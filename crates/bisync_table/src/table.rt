//! The nine cells.

ghost use Rattle.std.specs.Prelude.{◌≡◌, option_copied, if◌then◌else◌};
ghost use Rattle.bisync_table.specs.Cells.{rule_of, rule_in};
ghost use Rattle.bisync_tree.specs.Walk.{seen};

use bisync_tree::comparing::class;
use bisync_tree::{Cell, Class, Compare, Entry, Rule, Side, same};

/// What a run does with a passing path, from its base entries and its entries now.
pub fn rule(
    compare: &Compare,
    base1: Option<&Entry>,
    base2: Option<&Entry>,
    now1: Option<&Entry>,
    now2: Option<&Entry>,
) -> Rule
    ensures { result ≡ rule_of compare.now (option_copied base1.entry) (option_copied base2.entry) (option_copied now1.entry) (option_copied now2.entry) }
{
    match (class(compare, base1, now1), class(compare, base2, now2)) {
        (Class::Quiet, Class::Quiet) | (Class::Gone, Class::Gone) => Rule::Nothing,
        (Class::Fresh, Class::Quiet | Class::Gone) => Rule::Copy(Side::One),
        (Class::Quiet | Class::Gone, Class::Fresh) => Rule::Copy(Side::Two),
        (Class::Gone, Class::Quiet) => delete_where(now2.is_some(), Side::Two),
        (Class::Quiet, Class::Gone) => delete_where(now1.is_some(), Side::One),
        (Class::Fresh, Class::Fresh) => {
            if same(compare, now1, now2) {
                Rule::Nothing
            } else {
                Rule::Conflict
            }
        }
    }
}

/// The rule of a cell of a walk.
pub fn rule_of_cell(compare: &Compare, cell: &Cell<'_>) -> Rule
    ensures { result ≡ rule_in compare.now (seen cell.now) }
{
    rule(compare, cell.base1, cell.base2, cell.now1, cell.now2)
}

/// The side's file is deleted, where it is there.
fn delete_where(is_there: bool, side: Side) -> Rule
    ensures { result ≡ (if is_there then Rule.Delete side else Rule.Nothing) }
{
    if is_there {
        Rule::Delete(side)
    } else {
        Rule::Nothing
    }
}
