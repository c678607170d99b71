// Rules 5 and 6: the children of each node, and the box that its entry gives each.
ghost use Rattle.std.specs.Prelude.{◌≡◌, true, ◌<◌};
ghost use Rattle.figures.specs.Figures.{SLOTS};
ghost use Rattle.rules.specs.Rules.{is_above, is_child, rule5, rule6};

use figures::{Table, Words};
use table::node::Entry;
use table::slot;

// Whether a slot is used and above the leaves.
pub fn is_above(table: &Words, slot: usize) -> bool
    requires { slot < SLOTS }
    ensures { result ≡ is_above table.now slot }
{
    !slot::is_free(table, slot) && slot::level_at(table, slot) != 0
}

// A child slot is 0 to 255, used, with level exactly one less.
pub fn is_child(table: &Words, slot: usize, e: Entry) -> bool
    requires { slot < SLOTS }
    ensures { result ≡ is_child table.now slot e }
{
    let child = e.reference;
    if Table::SLOTS <= child {
        return false;
    }
    if slot::is_free(table, child) {
        return false;
    }
    let level = slot::level_at(table, slot);
    if level == 0 {
        return false;
    }
    slot::level_at(table, child) == level - 1
}

pub fn rule5_at(table: &Words, slot: usize) -> bool
    requires { slot < SLOTS }
    ensures { result ≡ rule5 table.now slot }
{
    if !is_above(table, slot) {
        return true;
    }
    let n = slot::node_at(table, slot);
    n.held().iter().all(|e| is_child(table, slot, *e))
}

// Rule 6: an entry's box is the smallest that covers all boxes in the child. The children are slots of the table by rule 5.
pub fn rule6_at(table: &Words, slot: usize) -> bool
    requires { (slot < SLOTS) × (rule5 table.now slot ≡ true) }
    ensures { result ≡ rule6 table.now slot }
{
    if !is_above(table, slot) {
        return true;
    }
    let n = slot::node_at(table, slot);
    n.held().iter().all(|e| {
        let below = slot::entry_for(table, e.reference);
        e.rect == below.rect
    })
}
