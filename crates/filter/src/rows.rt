// The candidates so far, in four lent rows: how the tests and the answers read them, and how one more is noted.
ghost use Rattle.std.specs.Prelude.{◌≡◌, true, ◌<◌, length, set};
ghost use Rattle.grid.specs.Place.{PlaceOnGrid};
ghost use Rattle.leads.specs.Leads.{from_q, bar_of};
ghost use Rattle.table.specs.Stations.{is_point};
ghost use Rattle.filter.specs.Walk.{spot_in};
ghost use Rattle.filter.specs.Rows.{rows_of, rows_read, SameLent};

use crate::candidate::spot_in;
use grid::place::Place;
use leads::row::{Leads, bar, from_q};
use table::node::Entry;

// The number of each candidate, its x and y relative to the query's place, and its bar.
// Kept: rows of numbers, as `Leads` has them (speed), with how many stand in them beside: `listed` of specs/Rows.antt is of the first m (what may not change).
#[derive(Drop)]
pub struct Rows<'a> {
    pub numbers: &'a mut [u32],
    pub xs: &'a mut [u64],
    pub ys: &'a mut [u64],
    pub bars: &'a mut [u64],
}

// The candidates as they are read, on shared loans: the numbers, and what the tests read.
#[derive(Clone, Copy)]
pub struct Candidates<'a> {
    pub numbers: &'a [u32],
    pub leads: Leads<'a>,
}

impl Rows<'_> {
    // As the tests of the walk read them.
    pub fn leads(&self) -> Leads<'_>
        ensures xs { result.xs.now ≡ self.now.xs.now }
        ensures ys { result.ys.now ≡ self.now.ys.now }
        ensures bars { result.bars.now ≡ self.now.bars.now }
    {
        Leads {
            xs: self.xs,
            ys: self.ys,
            bars: self.bars,
        }
    }

    // As the final test and the list of candidates read them.
    pub fn candidates(&self) -> Candidates<'_>
        ensures { rows_read result ≡ rows_of self.now }
    {
        Candidates {
            numbers: self.numbers,
            leads: self.leads(),
        }
    }

    // The next of each row becomes that of the point.
    pub(crate) fn note(&mut self, at: usize, e: Entry, q: Place)
        requires at_in_bounds { (at < length self.old.numbers.now) × (at < length self.old.xs.now) × (at < length self.old.ys.now) × (at < length self.old.bars.now) }
        requires e_value { (is_point e ≡ true) × PlaceOnGrid q }
        ensures number { self.new.numbers.now ≡ set self.old.numbers.now at e.reference }
        ensures x { self.new.xs.now ≡ set self.old.xs.now at (from_q e.rect.x.low q.x) }
        ensures y { self.new.ys.now ≡ set self.old.ys.now at (from_q e.rect.y.low q.y) }
        ensures bar { self.new.bars.now ≡ set self.old.bars.now at (bar_of q (spot_in e)) }
        ensures lent { SameLent self.old self.new }
    {
        let p = spot_in(e);
        self.numbers[at] = e.reference as u32;
        self.xs[at] = from_q(p.x, q.x);
        self.ys[at] = from_q(p.y, q.y);
        self.bars[at] = bar(q, p);
    }
}
