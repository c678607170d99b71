// The table that a sheet starts with.
ghost use Rattle.std.specs.Prelude.{◌≡◌};
ghost use Rattle.table.specs.Empty.{empty_table};

use figures::{Table, Words};
use table::slot;

// Every slot becomes free, and there is no root and no point.
pub fn clear(table: &mut Words)
    ensures { table.new ≡ empty_table }
{
    slot::put_no_root(table);
    slot::put_points(table, 0);
    for slot in 0..Table::SLOTS {
        slot::free_slot(table, slot);
    }
}
