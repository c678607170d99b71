// Where a station stands: the leaf entry with its number.
ghost use Rattle.std.specs.Prelude.{◌≡◌, ◌<◌};
ghost use Rattle.figures.specs.Figures.{SLOTS};
ghost use Rattle.rules.specs.Rules.{leaf_entries};
ghost use Rattle.naming.specs.Named.{where_in, where_of};

use figures::{Table, Words};
use filter::candidate::spot_in;
use grid::place::Place;
use table::slot::{count_at, entry_at, level_at};

// In one slot. A free slot has level −1, so it is no leaf.
fn find_in(table: &Words, slot: usize, number: usize) -> Option<Place>
    requires { slot < SLOTS }
    ensures { result ≡ where_in number (leaf_entries table.now slot) }
{
    if level_at(table, slot) != 0 {
        return None;
    }
    for i in 0..count_at(table, slot) {
        let e = entry_at(table, slot, i);
        if e.reference == number {
            return Some(spot_in(e));
        }
    }
    None
}

pub fn find(table: &Words, number: usize) -> Option<Place>
    ensures { result ≡ where_of table.now number }
{
    for slot in 0..Table::SLOTS {
        if let Some(p) = find_in(table, slot, number) {
            return Some(p);
        }
    }
    None
}
