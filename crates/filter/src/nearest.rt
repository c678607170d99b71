// The order in which a node's entries are taken: by least squared distance from q to their box, ties by lower place.
ghost use Rattle.std.specs.Prelude.{◌≡◌, ◌<◌, map, length};
ghost use Rattle.grid.specs.Place.{PlaceOnGrid, RectOnGrid, least_square};
ghost use Rattle.order.specs.Lists.{All};
ghost use Rattle.order.specs.Order.{row_of};
ghost use Rattle.figures.specs.Figures.{SLOTS};
ghost use Rattle.table.specs.Slots.{entries_at};

use figures::Words;
use grid::place::Place;
use table::slot::{count_at, entry_at};

// The places of the entries in a slot, nearest first. Each entry is read straight from the slot: the whole node by value would be copied.
pub fn nearest(table: &Words, slot: usize, q: Place) -> [usize; order::MOST]
    requires slot_value { (slot < SLOTS) × PlaceOnGrid q }
    requires all { All (λ e. RectOnGrid e.rect) (entries_at table.now slot) }
    ensures { result ≡ row_of (map (λ e. least_square e.rect q) (entries_at table.now slot)) }
{
    let mut marks = [order::NONE; order::MOST];
    let count = count_at(table, slot);
    for i in 0..count {
        let e = entry_at(table, slot, i);
        marks[i] = order::mark(e.rect.least_square(q), i);
    }
    order::in_order(&marks, count)
}
