// The filter walk: it opens a node, takes the entries nearest first, and calls itself on each child that it opens.
ghost use Rattle.std.specs.Prelude.{◌≡◌, true, ◌<◌, length};
ghost use Rattle.order.specs.Lists.{All};
ghost use Rattle.figures.specs.Figures.{SLOTS};
ghost use Rattle.table.specs.Slots.{entries_at};
ghost use Rattle.table.specs.Stations.{is_point};
ghost use Rattle.filter.specs.Walk.{each, nearest_first, visited, walk as walk_of};
ghost use Rattle.filter.specs.Rows.{rows_of, Ready, SameLent, Went};
ghost use Rattle.filter.specs.Passable.{Passable};

use crate::candidate::visit;
use crate::nearest::nearest;
use crate::rows::Rows;
use crate::seen::Seen;
use figures::Words;
use grid::place::Place;
use table::slot::{count_at, entry_at};

// The points of a leaf, nearest first.
fn visit_leaf(
    table: &Words,
    slot: usize,
    q: Place,
    k: usize,
    rows: &mut Rows<'_>,
    seen: Seen,
) -> Seen
    requires slot_value { (slot < SLOTS) × All (λ e. is_point e ≡ true) (entries_at table.now slot) }
    requires ready { Ready q (each (visited q k) (nearest_first q k (entries_at table.now slot))) (rows_of rows.old) seen }
    ensures went { Went q (each (visited q k) (nearest_first q k (entries_at table.now slot)))
        (rows_of rows.old) seen
        (rows_of rows.new) result }
    ensures lent { SameLent rows.old rows.new }
{
    let row = nearest(table, slot, q);
    let count = count_at(table, slot);
    let mut so_far = seen;
    for i in 0..count {
        let e = entry_at(table, slot, row[i]);
        so_far = visit(e, q, k, rows, so_far);
    }
    so_far
}

// Kept: q, k, the rows and how far the walk has come stand side by side: as fields of one lent walk, each promise would have to say that q and k stay, no plainer.
// Nor is Passable an invariant: it speaks of the table with one slot of it.
// The node in a slot, and what is below it.
pub fn walk(
    table: &Words,
    slot: usize,
    level: usize,
    q: Place,
    k: usize,
    rows: &mut Rows<'_>,
    seen: Seen,
) -> Seen
    requires passable { Passable level table.now slot }
    requires ready { Ready q (walk_of q k level table.now slot) (rows_of rows.old) seen }
    ensures went { Went q (walk_of q k level table.now slot)
        (rows_of rows.old) seen
        (rows_of rows.new) result }
    ensures lent { SameLent rows.old rows.new }
{
    let mut so_far = seen.opening();
    if level == 0 {
        return visit_leaf(table, slot, q, k, rows, so_far);
    }
    let below = level - 1;
    let row = nearest(table, slot, q);
    let count = count_at(table, slot);
    for i in 0..count {
        let e = entry_at(table, slot, row[i]);
        let near = rows.leads().all_as_near(so_far.candidates, e.rect, q);
        if near < k {
            so_far = walk(table, e.reference, below, q, k, rows, so_far);
        }
    }
    so_far
}
