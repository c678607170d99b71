// The final test of a candidate, by the meaning, against the whole table: down the tree, past each box in which no point can be as near as the query's place.
ghost use Rattle.std.specs.Prelude.{◌≡◌, true, ◌<◌, min};
ghost use Rattle.grid.specs.Place.{PlaceOnGrid};
ghost use Rattle.order.specs.Lists.{count as count_of, All};
ghost use Rattle.figures.specs.Figures.{SLOTS};
ghost use Rattle.table.specs.Slots.{entries_at};
ghost use Rattle.table.specs.Stations.{is_point};
ghost use Rattle.rules.specs.Rules.{Passing};
ghost use Rattle.filter.specs.Passable.{Passable};
ghost use Rattle.vetting.specs.Test.{other_as_near, below as below_of, Boxed, passes as passes_of};

use figures::Words;
use filter::candidate::spot_in;
use grid::place::{Place, is_as_near};
use table::node::Entry;
use table::slot::{count_at, entry_at, level_at, points_of, root_of};

// A point as it is tested: its number, its place on the grid, and the squared distance from there to the query's place.
#[derive(Clone, Copy)]
pub struct Tested {
    pub number: usize,
    pub place: Place,
    pub far: u64,
    pub ghost on_grid: { PlaceOnGrid place },
}

impl Tested {
    // Whether the entry is another point, and as near to this one as the query's place is, or nearer.
    fn has_as_near(self, e: Entry) -> bool
        requires { is_point e ≡ true }
        ensures { result ≡ other_as_near self.number self.place self.far e }
    {
        let away = spot_in(e).square_to(self.place);
        // Two points may share a place: only the number tells them apart.
        let other = e.reference;
        if other == self.number {
            return false;
        }
        is_as_near(away, self.far)
    }

    // How many points of a leaf are others that are as near or nearer; it stops at `most`.
    fn others_in(self, table: &Words, slot: usize, most: usize) -> usize
        requires slot_value { slot < SLOTS }
        requires all { All (λ e. is_point e ≡ true) (entries_at table.now slot) }
        ensures { result ≡ min most (count_of (other_as_near self.number self.place self.far) (entries_at table.now slot)) }
    {
        let count = count_at(table, slot);
        let mut found = 0;
        for i in 0..count {
            if most <= found {
                return found;
            }
            let e = entry_at(table, slot, i);
            if self.has_as_near(e) {
                found += 1;
            }
        }
        found
    }

    // Kept: slot and level as two words, as in the walk (filter); each step down makes both anew, no plainer in a struct.
    // The same of all points below a node. A box whose least distance to the point is greater holds none of them, and is passed by.
    fn others_below(self, table: &Words, slot: usize, level: usize, most: usize) -> usize
        requires { Passable level table.now slot × Boxed level table.now slot }
        ensures { result ≡ min most (count_of (other_as_near self.number self.place self.far) (below_of level table.now slot)) }
    {
        if level == 0 {
            return self.others_in(table, slot, most);
        }
        let count = count_at(table, slot);
        let mut found = 0;
        for i in 0..count {
            if most <= found {
                return found;
            }
            let e = entry_at(table, slot, i);
            if is_as_near(e.rect.least_square(self.place), self.far) {
                found += self.others_below(table, e.reference, level - 1, most - found);
            }
        }
        found
    }

    // Whether fewer than k others are as near or nearer. The empty table has no root to start from.
    pub fn passes(self, table: &Words, k: usize) -> bool
        requires { Passing table.now }
        ensures { result ≡ passes_of table.now self.number self.place self.far k }
    {
        if points_of(table) == 0 {
            return 0 < k;
        }
        let root = root_of(table);
        let level = level_at(table, root);
        self.others_below(table, root, level, k) < k
    }
}
