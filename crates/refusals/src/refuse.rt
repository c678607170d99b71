// The lines of document 01's table of refusals that speak of what the table holds. Those that speak of what is asked alone are limits'.
ghost use Rattle.std.specs.Prelude.{◌≡◌};
ghost use Rattle.refusals.specs.Refusals.{is_enrolled, is_full};

use figures::{Table, Words};
use naming::find::find;
use table::slot;
use words::border;

// 6 and 8: whether the number is enrolled.
pub(crate) fn is_enrolled(table: &Words, number: i32) -> bool
    ensures { result ≡ is_enrolled table.now number }
{
    find(table, border::natural(number)).is_some()
}

// 7: 500 points enrolled.
pub(crate) fn is_full(table: &Words) -> bool
    ensures { result ≡ is_full table.now }
{
    Table::MOST <= slot::points_of(table)
}
