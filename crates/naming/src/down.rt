// Down the tree for a card: the entries of a node nearest first, up to the first box that cannot hold a better holder than those found.
ghost use Rattle.std.specs.Prelude.{◌≡◌, true, [], ◌∷◌, ◌++◌, ◌<◌, length};
ghost use Rattle.order.specs.Lists.{All};
ghost use Rattle.order.specs.Order.{least};
ghost use Rattle.figures.specs.Figures.{SLOTS};
ghost use Rattle.table.specs.Slots.{entries_at};
ghost use Rattle.table.specs.Stations.{is_point};
ghost use Rattle.filter.specs.Passable.{Passable};
ghost use Rattle.vetting.specs.Test.{below as below_of, Boxed};
ghost use Rattle.naming.specs.Holders.{marks_of};

use crate::best::{Best, mark_of};
use crate::holder::Holder;
use figures::Words;
use filter::candidate::spot_in;
use filter::nearest::nearest;
use table::node::Entry;
use table::slot::{count_at, entry_at};

// One point: the station itself is on no card of its own.
fn offer_point(e: Entry, holder: Holder, best: &mut Best<'_>)
    requires { is_point e ≡ true }
    ensures best { best.new.marks.now ≡ least (length best.old.marks.now) (marks_of holder.number holder.place (e ∷ []) ++ best.old.marks.now) }
    ensures lent { best.new.marks.ghost_name ≡ best.old.marks.ghost_name }
{
    let other = e.reference;
    if other == holder.number {
        return;
    }
    best.offer(mark_of(spot_in(e).square_to(holder.place), other));
}

// The points of a leaf, in any order.
fn offer_leaf(table: &Words, slot: usize, holder: Holder, best: &mut Best<'_>)
    requires within { slot < SLOTS }
    requires all { All (λ e. is_point e ≡ true) (entries_at table.now slot) }
    ensures best { best.new.marks.now ≡ least (length best.old.marks.now) (marks_of holder.number holder.place (entries_at table.now slot) ++ best.old.marks.now) }
    ensures lent { best.new.marks.ghost_name ≡ best.old.marks.ghost_name }
{
    for i in 0..count_at(table, slot) {
        let e = entry_at(table, slot, i);
        offer_point(e, holder, best);
    }
}

// Kept: slot and level as two words, as in the walk (filter); each step down makes both anew, no plainer in a struct.
// All points below a node.
pub fn offer_below(table: &Words, slot: usize, level: usize, holder: Holder, best: &mut Best<'_>)
    requires { Passable level table.now slot × Boxed level table.now slot }
    ensures best { best.new.marks.now ≡ least (length best.old.marks.now) (marks_of holder.number holder.place (below_of level table.now slot) ++ best.old.marks.now) }
    ensures lent { best.new.marks.ghost_name ≡ best.old.marks.ghost_name }
{
    if level == 0 {
        offer_leaf(table, slot, holder, best);
        return;
    }
    let row = nearest(table, slot, holder.place);
    for at in &row[..count_at(table, slot)] {
        let e = entry_at(table, slot, *at);
        // The entries behind it lie no nearer.
        if best.is_beyond(e.rect.least_square(holder.place)) {
            return;
        }
        let child = e.reference;
        offer_below(table, child, level - 1, holder, best);
    }
}
