// Rule 2: the two header words.
ghost use Rattle.std.specs.Prelude.{◌≡◌};
ghost use Rattle.rules.specs.Rules.{is_empty, rule2};

use figures::{Table, Words};
use table::{part, slot};
use words::border;

// The empty table: root −1, points 0, all slots free.
pub fn is_empty(table: &Words) -> bool
    ensures { result ≡ is_empty table.now }
{
    if border::steps_at(table, 0) != part::NONE {
        return false;
    }
    if slot::points_of(table) != 0 {
        return false;
    }
    (0..Table::SLOTS).all(|slot| slot::is_free(table, slot))
}

// Rule 2: empty, or the root is a used slot and points are 1 to 500.
pub fn rule2_holds(table: &Words) -> bool
    ensures { result ≡ rule2 table.now }
{
    if is_empty(table) {
        return true;
    }
    let root = slot::root_of(table);
    if Table::SLOTS <= root {
        return false;
    }
    if slot::is_free(table, root) {
        return false;
    }
    (1..=Table::MOST).contains(&slot::points_of(table))
}
